// What the routing of a synchronous event asks (document 01, "Routing"). The event itself enters at once, in `synchronous`.
ghost use Rattle.std.specs.Prelude.{◌≡◌, ◌&&◌, ◌||◌, ◌<◌};
ghost use Rattle.entry.specs.Code.{PREFETCH_ABORT, stage2};
ghost use Rattle.entry.specs.Parts.{narrow, general_to_hyp, Enters};
ghost use Rattle.entry.specs.Route.{offset_to, routed_a};
ghost use Rattle.entry.specs.Way.{Enter};
ghost use Rattle.state.specs.Choice.{◌is◌};
ghost use Rattle.state.specs.Field.{mode_field, HCR_TSC as tsc_of};
ghost use Rattle.state.specs.Mode.{HYP};
ghost use Rattle.state.specs.State.{secure, ns_el1};

use crate::entry::Entry;
use crate::offset;
use state::field::{CPSR_T, HCR_TGE, HCR_TSC, HDCR_TDE, SCR_NS, is_set};
use state::mode::Mode;
use state::state::Status;

// The offset of an entry to Hyp that is not IRQ or FIQ: its own from Hyp alone, and from another mode there is one for all.
pub fn hyp_offset(status: Status, own: u32) -> u32
    ensures offset { result ≡ offset_to HYP (mode_field status.cpsr) own }
    ensures near { own < 32 → result < 32 }
{
    if status.mode() == Mode::HYP {
        own
    } else {
        offset::HYP_TRAP
    }
}

// Such an entry, with a word for its return address.
pub fn hyp_entry(status: Status, own: u32, link: u32) -> Entry
    requires { own < 32 }
    ensures { Enters (Enter HYP (offset_to HYP (mode_field status.cpsr) own) link) result }
{
    Entry {
        to: Mode::HYP,
        offset: hyp_offset(status, own),
        link,
    }
}

// 2 with T 1, else 4: the length of an SVC, and what the link of Undefined and Monitor Trap has added.
pub fn narrow_of(cpsr: u32) -> u32
    ensures { result ≡ narrow cpsr }
{
    if is_set::<CPSR_T>(cpsr) { 2 } else { 4 }
}

// Does one of codes 1, 2, 5, 6 go to Hyp? It does from Hyp, and from Non-secure User with TGE 1.
pub fn general_to_hyp(status: Status, hcr: u32) -> bool
    ensures { result ≡ general_to_hyp status.cpsr status.scr hcr }
{
    match status.mode() {
        Mode::HYP => true,
        Mode::USER => is_set::<SCR_NS>(status.scr) && is_set::<HCR_TGE>(hcr),
        _ => false,
    }
}

// The bits of an abort's A, each by its place, and the A that stage 2 alone is.
pub const EXTERNAL: u32 = 0;

pub const STAGE_2: u32 = 1;

pub const DEBUG: u32 = 2;

const STAGE_2_ALONE: u32 = 2;

// The A that a Prefetch Abort is routed by: a debug abort that TDE sends to Hyp goes there as one of stage 2 does.
#[tactic(auto, using(state::proofs::Laws::in_guest))]
pub fn routed_a(a: u32, status: Status, hdcr: u32) -> u32
    ensures { result ≡ routed_a PREFETCH_ABORT a status.cpsr status.scr hdcr }
{
    if !is_set::<DEBUG>(a) {
        return a;
    }
    if !is_set::<SCR_NS>(status.scr) {
        return a;
    }
    if !status.mode().is_guest() {
        return a;
    }
    if is_set::<HDCR_TDE>(hdcr) {
        STAGE_2_ALONE
    } else {
        a
    }
}

// Has an abort a stage 2 where there is none, in Secure state or in Hyp?
pub fn lacks_stage2(a: u32, status: Status) -> bool
    ensures { result ≡ (stage2 a && (secure status.cpsr status.scr || mode_field status.cpsr is HYP)) }
{
    is_set::<STAGE_2>(a) && (status.is_secure() || status.mode() == Mode::HYP)
}

// Is an SMC trapped? It is from NS EL1 with TSC 1.
#[tactic(auto, using(state::proofs::Laws::ns_el1_lem))]
pub fn is_trapped(status: Status, hcr: u32) -> bool
    ensures { result ≡ (ns_el1 status.cpsr status.scr && tsc_of hcr) }
{
    is_set::<SCR_NS>(status.scr) && is_set::<HCR_TSC>(hcr) && status.mode().is_el1()
}
