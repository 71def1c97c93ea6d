// Which of the six exceptions can be taken (document 01, "The interrupt check").
ghost use Rattle.std.specs.Prelude.{◌≡◌, ◌||◌};
ghost use Rattle.state.specs.Field.{HCR_TGE as tge_of};
ghost use Rattle.interrupts.specs.Decision.{physical};
ghost use Rattle.interrupts.specs.Kind.{the_kind};
ghost use Rattle.interrupts.specs.Masking.{obeyed};
ghost use Rattle.interrupts.specs.Parts.{virtual_here, takes_virtual};
ghost use Rattle.interrupts.specs.Takeable.{takeable};

use crate::kind::Kind;
use state::field::{HCR_TGE, SCR_NS, is_set};
use state::mode::Mode;
use state::state::Status;

// The masking table: is the PSTATE mask bit obeyed?
#[tactic(auto, using(crate::proofs::Laws::obeyed_by_lem))]
fn is_obeyed(secure: bool, hyp: bool, m: bool, r: bool, w: bool) -> bool
    ensures { result ≡ obeyed secure hyp m r w }
{
    if secure {
        true
    } else if m {
        if hyp { !r } else { false }
    } else if r {
        w
    } else {
        true
    }
}

// An override bit acts on masking as itself or TGE; it stays in HCR as it was written.
fn acting(m: bool, hcr: u32) -> bool
    ensures { result ≡ (m || tge_of hcr) }
{
    m | is_set::<HCR_TGE>(hcr)
}

// A physical exception can be taken if its line is set and its mask bit is clear or not obeyed.
#[tactic(auto, using(crate::proofs::Laws::can_take))]
pub fn takes(kind: Kind, lines: u32, status: Status, hcr: u32) -> bool
    ensures { result ≡ takeable (physical (the_kind kind)) lines status.cpsr status.scr hcr }
{
    if !kind.line(lines) {
        return false;
    }
    if !kind.mask(status.cpsr) {
        return true;
    }
    !is_obeyed(
        status.is_secure(),
        status.mode() == Mode::HYP,
        acting(kind.m(hcr), hcr),
        kind.r(status.scr),
        kind.w(status.scr),
    )
}

// Can a virtual exception be pending at all? In Non-secure User or NS EL1, with TGE 0.
pub fn is_virtual_here(status: Status, hcr: u32) -> bool
    ensures { result ≡ virtual_here status.cpsr status.scr hcr }
{
    is_set::<SCR_NS>(status.scr) & status.mode().is_guest() & !is_set::<HCR_TGE>(hcr)
}

// A virtual exception, where one can be pending, by its M, its source and its mask bit.
pub fn takes_virtual(kind: Kind, lines: u32, cpsr: u32, hcr: u32) -> bool
    ensures { result ≡ takes_virtual (the_kind kind) lines cpsr hcr }
{
    kind.m(hcr) && kind.source(hcr, lines) && !kind.mask(cpsr)
}
