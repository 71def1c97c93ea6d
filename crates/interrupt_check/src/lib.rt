// The interrupt check (document 01, "The interrupt check"), on a good block: the first exception that can be taken is.
#![tactic(auto)]

ghost use Rattle.std.specs.Prelude.{Ok};
ghost use Rattle.entry.specs.Parts.{Enters};
ghost use Rattle.interrupts.specs.Check.{physical_way, virtual_way, way};
ghost use Rattle.interrupts.specs.Decision.{physical};
ghost use Rattle.interrupts.specs.Parts.{virtual};
ghost use Rattle.interrupts.specs.Kind.{the_kind};
ghost use Rattle.rules.specs.Event.{INTERRUPT_CHECK};
ghost use Rattle.rules.specs.Parts.{CameTo};
ghost use Rattle.rules.specs.Step.{taken_by};
ghost use Rattle.state.specs.Parts.{ReadFrom};
ghost use Rattle.state.specs.Place.{PC as pc_place};
ghost use Rattle.words.specs.Word.{word};

use entry::entry::Entry;
use entry::route::hyp_entry;
use interrupts::check::{first_takeable, goes_to_hyp};
use interrupts::exception::Exception;
use interrupts::kind::Kind;
use rules::event::{LINE_VALUES, Operands};
use rules::rule::Rule;
use rules::taking::take;
use rules::verdict::Verdict;
use state::mode::Mode;
use state::place;
use state::place::BLOCK_SIZE;
use state::refusal::Refusal;
use state::state::Status;
use words::get_word;

// Where a physical exception goes: to Monitor by its bit of SCR, to Hyp, where anything but IRQ and FIQ has another offset, or to
// the kind's own mode.
#[tactic(auto, unfolding(state::specs::Mode::is_target))]
fn physical_entry(kind: Kind, status: Status, hcr: u32, pc: u32) -> Entry
    ensures { Enters (physical_way (the_kind kind) status.cpsr status.scr hcr pc) result }
{
    let own = kind.own_offset();
    if kind.r(status.scr) {
        return Entry {
            to: Mode::MONITOR,
            offset: own,
            link: pc.wrapping_add(kind.addend()),
        };
    }
    if goes_to_hyp(status, hcr, kind.m(hcr)) {
        if kind == Kind::SError {
            return hyp_entry(status, own, pc);
        }
        return Entry {
            to: Mode::HYP,
            offset: own,
            link: pc,
        };
    }
    own_entry(kind, pc)
}

// Where a virtual one goes: to the kind's own mode.
fn own_entry(kind: Kind, pc: u32) -> Entry
    ensures { Enters (virtual_way (the_kind kind) pc) result }
{
    Entry {
        to: kind.own_mode(),
        offset: kind.own_offset(),
        link: pc.wrapping_add(kind.addend()),
    }
}

// A physical exception, and a virtual one. Each is called with a kind that is named, so that the compiler makes one of its own for each.
#[inline(always)]
fn take_physical(block: &mut [u8; BLOCK_SIZE], status: Status, hcr: u32, kind: Kind) -> Verdict
    requires { ReadFrom block.old status }
    ensures { CameTo block.old
        (taken_by (physical (the_kind kind)) (physical_way (the_kind kind) status.cpsr status.scr hcr (word block.old pc_place)))
        (Ok result) block.new }
{
    let entry = physical_entry(kind, status, hcr, get_word(block, place::PC));
    take(block, status, kind.physical(), entry)
}

#[inline(always)]
fn take_virtual(block: &mut [u8; BLOCK_SIZE], status: Status, kind: Kind) -> Verdict
    requires { ReadFrom block.old status }
    ensures { CameTo block.old (taken_by (virtual (the_kind kind)) (virtual_way (the_kind kind) (word block.old pc_place)))
        (Ok result) block.new }
{
    let entry = own_entry(kind, get_word(block, place::PC));
    take(block, status, kind.virtual_one(), entry)
}

// The exception that was found, from the block whose HCR this is.
#[tactic(auto, unfolding(interrupts::specs::Check::way))]
fn take_found(
    block: &mut [u8; BLOCK_SIZE],
    status: Status,
    hcr: u32,
    x: Exception,
) -> Result<Verdict, Refusal>
    requires { ReadFrom block.old status }
    ensures { CameTo block.old (taken_by x (way x status.cpsr status.scr hcr (word block.old pc_place))) result block.new }
{
    match x {
        Exception::Synchronous => Err(Refusal::NotHere),
        Exception::SError => Ok(take_physical(block, status, hcr, Kind::SError)),
        Exception::Fiq => Ok(take_physical(block, status, hcr, Kind::Fiq)),
        Exception::Irq => Ok(take_physical(block, status, hcr, Kind::Irq)),
        Exception::VirtualSError => Ok(take_virtual(block, status, Kind::SError)),
        Exception::VirtualFiq => Ok(take_virtual(block, status, Kind::Fiq)),
        Exception::VirtualIrq => Ok(take_virtual(block, status, Kind::Irq)),
    }
}

pub struct InterruptCheck;

impl Rule for InterruptCheck {
    ghost code = { INTERRUPT_CHECK };

    fn apply(
        block: &mut [u8; BLOCK_SIZE],
        operands: Operands,
        status: Status,
    ) -> Result<Verdict, Refusal> {
        if !operands.are_within(LINE_VALUES) {
            return Err(Refusal::BadEvent);
        }
        let hcr = get_word(block, place::HCR);
        match first_takeable(operands.a, status, hcr) {
            Some(x) => take_found(block, status, hcr, x),
            None => Ok(Verdict::NothingTaken(operands.a)),
        }
    }
}
