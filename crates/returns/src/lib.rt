// The parts of an exception return (document 02, No. 9): whether its operand is right, whether it is illegal, and the two words
// that it writes. The event itself is in `exception_return`.
#![tactic(auto)]

ghost use Rattle.std.specs.Prelude.{◌≡◌};
ghost use Rattle.state.specs.Field.{mode_field, SCR_NS as ns_of, HCR_TGE as tge_of};
ghost use Rattle.returns.specs.Level.{level};
ghost use Rattle.returns.specs.Parts.{Leaves, above_set, IllegalModes};
ghost use Rattle.returns.specs.Return.{wrong_a, bad_saved, mode_kept, word_after, address_after};

use state::field::{CPSR_T, HCR_TGE, SCR_NS, is_set};
use state::mode;
use state::mode::Mode;
use state::state::Status;

// What a return may take off the link, as a set, bit n for the number n.
const TAKEN_OFF: u32 = 1 << 0 | 1 << 2 | 1 << 4 | 1 << 8;

// The modes above EL2, and above Non-secure EL1, as sets.
const ABOVE_HYP: u32 = 1 << Mode::MONITOR.number;

const ABOVE_EL1: u32 = ABOVE_HYP | 1 << Mode::HYP.number;

// Is A none of those that may be taken off the link? From Hyp that is nothing.
#[tactic(auto, using(crate::proofs::Sets::taken_off_says), unfolding(crate::specs::Return::wrong_a))]
pub fn is_wrong_a(cpsr: u32, a: u32) -> bool
    ensures { result ≡ wrong_a cpsr a }
{
    if Mode::of(cpsr) == Mode::HYP {
        return a != 0;
    }
    if a < 32 {
        return TAKEN_OFF >> a & 1 != 1;
    }
    true
}

// Has the saved word one of bits 24 to 21 set?
pub fn is_bad_saved(saved: u32) -> bool
    ensures { result ≡ bad_saved saved }
{
    saved / 0x20_0000 % 16 * 0x20_0000 != 0
}

// The modes above the one of CPSR, in Non-secure state and Monitor.
fn above(cpsr: u32) -> u32
    ensures { result ≡ above_set (mode_field cpsr) }
{
    match Mode::of(cpsr) {
        Mode::MONITOR => 0,
        Mode::HYP => ABOVE_HYP,
        _ => ABOVE_EL1,
    }
}

// The modes that a return from the one of CPSR may not go to, as a set: one look at it stands for the whole list. With NS 0
// there is no level above, since every mode that returns stands at EL3.
#[tactic(auto, using(crate::proofs::Sets::with_ns_0, crate::proofs::Sets::with_tge, crate::proofs::Sets::without_tge))]
fn illegal_modes(status: Status, hcr: u32) -> u32
    requires { Leaves status.cpsr status.scr }
    ensures { IllegalModes (level (mode_field status.cpsr) (ns_of status.scr)) (ns_of status.scr) (tge_of hcr) result }
{
    if !is_set::<SCR_NS>(status.scr) {
        return mode::UNKNOWN_OR_HYP;
    }
    if is_set::<HCR_TGE>(hcr) {
        return mode::UNKNOWN_OR_EL1 + above(status.cpsr);
    }
    mode::UNKNOWN + above(status.cpsr)
}

// The saved word with IL set and the mode as it is.
#[tactic(auto, unfolding(crate::specs::Return::mode_kept))]
fn mode_kept(cpsr: u32, saved: u32) -> u32
    ensures { result ≡ mode_kept cpsr saved }
{
    saved / 0x200_0000 * 0x200_0000 + 0x10_0000 + saved / 32 % 0x8000 * 32 + cpsr % 32
}

// CPSR after the return.
#[tactic(auto, unfolding(crate::specs::Return::word_after))]
pub fn word_after(status: Status, hcr: u32, saved: u32) -> u32
    requires { Leaves status.cpsr status.scr }
    ensures { result ≡ word_after status.cpsr status.scr hcr saved }
{
    if illegal_modes(status, hcr) >> (saved % 32) & 1 == 1 {
        return mode_kept(status.cpsr, saved);
    }
    saved
}

// PC after it.
#[tactic(auto, unfolding(crate::specs::Return::address_after))]
pub fn address_after(saved: u32, link: u32, a: u32) -> u32
    ensures { result ≡ address_after saved link a }
{
    let address = link.wrapping_sub(a);
    if is_set::<CPSR_T>(saved) {
        return address / 2 * 2;
    }
    address / 4 * 4
}
