// What every rule asks of the words CPSR, SCR and HCR: the mode, the Security state, and whether the block is good
// (document 01, "The state block" and "Answer numbers").
ghost use Rattle.std.specs.Prelude.{◌≡◌};
ghost use Rattle.state.specs.Field.{mode_field, SCR_NS as ns_of, HCR_TGE as tge_of};
ghost use Rattle.state.specs.Parts.{BadModes, mode_fault};
ghost use Rattle.state.specs.Refusal.{number, number_of};
ghost use Rattle.state.specs.State.{secure, fault_of};

use crate::field::{HCR_TGE, SCR_NS, is_set};
use crate::mode;
use crate::mode::Mode;
use crate::refusal::Refusal;

// The two words of a block that every rule asks, as they were read.
#[derive(Clone, Copy, Debug, PartialEq, Eq)]
pub struct Status {
    pub cpsr: u32,
    pub scr: u32,
}

impl Status {
    // The mode that CPSR names.
    pub fn mode(self) -> Mode
        ensures { result ≡ record { number = mode_field self.cpsr } }
    {
        Mode::of(self.cpsr)
    }

    // Is the state Secure? Monitor is, whatever NS says.
    pub fn is_secure(self) -> bool
        ensures { result ≡ secure self.cpsr self.scr }
    {
        !is_set::<SCR_NS>(self.scr) | (self.mode() == Mode::MONITOR)
    }

    // The modes in which no block with this SCR and HCR is good, as a set: one look at it stands for all tests of the mode.
    #[tactic(auto, using(crate::proofs::Good::with_tge, crate::proofs::Good::without_tge, crate::proofs::Good::with_ns_0))]
    fn bad_modes(self, hcr: u32) -> u32
        ensures { BadModes (ns_of self.scr) (tge_of hcr) result }
    {
        if is_set::<SCR_NS>(self.scr) {
            if is_set::<HCR_TGE>(hcr) {
                return mode::UNKNOWN_OR_EL1;
            }
            return mode::UNKNOWN;
        }
        mode::UNKNOWN_OR_HYP
    }

    // The answer to a block in one of them.
    fn mode_fault(self) -> Refusal
        ensures { number result ≡ mode_fault self.cpsr }
    {
        if self.mode().is_known() {
            return Refusal::BadState;
        }
        Refusal::BadMode
    }

    // Are the three words, this HCR with them, those of a good block? BAD_MODE or BAD_STATE where they are not.
    pub fn judge(self, hcr: u32) -> Result<(), Refusal>
        ensures { number_of result ≡ fault_of self.cpsr self.scr hcr }
    {
        if self.bad_modes(hcr) >> (self.cpsr % 32) & 1 == 1 {
            return Err(self.mode_fault());
        }
        if self.cpsr / 0x20_0000 % 16 * 0x20_0000 != 0 {
            return Err(Refusal::BadState);
        }
        Ok(())
    }
}
