// The first exception that can be taken, and whether Hyp is where it goes (document 01, "The interrupt check").
ghost use Rattle.std.specs.Prelude.{◌≡◌, ◌&&◌, ◌||◌, not};
ghost use Rattle.state.specs.Choice.{◌is◌};
ghost use Rattle.state.specs.Field.{mode_field, HCR_TGE as tge_of};
ghost use Rattle.state.specs.Mode.{HYP};
ghost use Rattle.state.specs.State.{secure};
ghost use Rattle.interrupts.specs.Check.{found};

use crate::exception::Exception;
use crate::kind::Kind;
use crate::takeable::{is_virtual_here, takes, takes_virtual};
use state::field::{HCR_TGE, is_set};
use state::mode::Mode;
use state::state::Status;

// The first one takeable, in the order of the paper.
#[tactic(auto, using(crate::proofs::Laws::virtual_parts), unfolding(crate::specs::Check::found))]
pub fn first_takeable(lines: u32, status: Status, hcr: u32) -> Option<Exception>
    ensures { result ≡ found lines status.cpsr status.scr hcr }
{
    if takes(Kind::SError, lines, status, hcr) {
        return Some(Exception::SError);
    }
    if takes(Kind::Fiq, lines, status, hcr) {
        return Some(Exception::Fiq);
    }
    if takes(Kind::Irq, lines, status, hcr) {
        return Some(Exception::Irq);
    }
    if !is_virtual_here(status, hcr) {
        return None;
    }
    if takes_virtual(Kind::SError, lines, status.cpsr, hcr) {
        return Some(Exception::VirtualSError);
    }
    if takes_virtual(Kind::Fiq, lines, status.cpsr, hcr) {
        return Some(Exception::VirtualFiq);
    }
    if takes_virtual(Kind::Irq, lines, status.cpsr, hcr) {
        return Some(Exception::VirtualIrq);
    }
    None
}

// Does a physical exception with this M, whose R is 0, go to Hyp?
pub fn goes_to_hyp(status: Status, hcr: u32, m: bool) -> bool
    ensures { result ≡ (mode_field status.cpsr is HYP || (not (secure status.cpsr status.scr) && (tge_of hcr || m))) }
{
    if status.mode() == Mode::HYP {
        return true;
    }
    if status.is_secure() {
        return false;
    }
    is_set::<HCR_TGE>(hcr) | m
}
