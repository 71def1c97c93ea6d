// The synchronous events (document 01, "Routing"), on a good block: each tests its operands, asks only what its own routing
// asks, and enters at once, so that its target is known where the entry is compiled.
#![tactic(auto, unfolding(state::specs::Mode::is_target))]

ghost use Rattle.std.specs.Prelude.{◌≡◌, ◌<◌};
ghost use Rattle.entry.specs.Code as codes;
ghost use Rattle.entry.specs.Parts.{abort_way};
ghost use Rattle.interrupts.specs.declared.exception.Exception.TheVariants.{Synchronous};
ghost use Rattle.rules.specs.Parts.{CameTo, abort_more};
ghost use Rattle.rules.specs.Step.{Take, taken_by};
ghost use Rattle.state.specs.Parts.{ReadFrom};
ghost use Rattle.words.specs.Word.{word};
ghost use Rattle.state.specs.Place.{PC as pc_place, HCR as hcr_place};

use entry::entry::Entry;
use entry::offset;
use entry::route::{
    EXTERNAL, STAGE_2, general_to_hyp, hyp_entry, is_trapped, lacks_stage2, narrow_of, routed_a,
};
use interrupts::exception::Exception;
use rules::event::{ABORT_VALUES, Operands, PREFETCH_VALUES, ZERO_ONLY};
use rules::rule::Rule;
use rules::taking::take;
use rules::verdict::Verdict;
use state::field::{SCR_EA, SCR_HCE, SCR_SCD, is_set};
use state::mode::Mode;
use state::place;
use state::place::BLOCK_SIZE;
use state::refusal::Refusal;
use state::state::Status;
use words::get_word;

// Taken, where nothing refuses it: the exception is synchronous.
#[inline(always)]
fn send(block: &mut [u8; BLOCK_SIZE], status: Status, entry: Entry) -> Result<Verdict, Refusal>
    requires { ReadFrom block.old status }
    ensures { CameTo block.old (Take Synchronous entry.to.number entry.offset entry.link) result block.new }
{
    Ok(take(block, status, Exception::Synchronous, entry))
}

pub struct UndefinedInstruction;

impl Rule for UndefinedInstruction {
    ghost code = { codes.UNDEFINED_INSTRUCTION };

    fn apply(
        block: &mut [u8; BLOCK_SIZE],
        operands: Operands,
        status: Status,
    ) -> Result<Verdict, Refusal> {
        if !operands.are_within(ZERO_ONLY) {
            return Err(Refusal::BadEvent);
        }
        let pc = get_word(block, place::PC);
        if general_to_hyp(status, get_word(block, place::HCR)) {
            return send(block, status, hyp_entry(status, offset::UNDEFINED, pc));
        }
        let entry = Entry {
            to: Mode::UNDEFINED,
            offset: offset::UNDEFINED,
            link: pc.wrapping_add(narrow_of(status.cpsr)),
        };
        send(block, status, entry)
    }
}

pub struct Svc;

impl Rule for Svc {
    ghost code = { codes.SVC };

    fn apply(
        block: &mut [u8; BLOCK_SIZE],
        operands: Operands,
        status: Status,
    ) -> Result<Verdict, Refusal> {
        if !operands.are_within(ZERO_ONLY) {
            return Err(Refusal::BadEvent);
        }
        let next = get_word(block, place::PC).wrapping_add(narrow_of(status.cpsr));
        if general_to_hyp(status, get_word(block, place::HCR)) {
            return send(block, status, hyp_entry(status, offset::CALL, next));
        }
        let entry = Entry {
            to: Mode::SUPERVISOR,
            offset: offset::CALL,
            link: next,
        };
        send(block, status, entry)
    }
}

// From NS EL1 with TSC 1 it is trapped.
pub struct Smc;

impl Rule for Smc {
    ghost code = { codes.SMC };

    fn apply(
        block: &mut [u8; BLOCK_SIZE],
        operands: Operands,
        status: Status,
    ) -> Result<Verdict, Refusal> {
        if !operands.are_within(ZERO_ONLY) {
            return Err(Refusal::BadEvent);
        }
        if status.mode() == Mode::USER {
            return Err(Refusal::NotHere);
        }
        let pc = get_word(block, place::PC);
        if is_trapped(status, get_word(block, place::HCR)) {
            let entry = Entry {
                to: Mode::HYP,
                offset: offset::HYP_TRAP,
                link: pc,
            };
            return send(block, status, entry);
        }
        if is_set::<SCR_SCD>(status.scr) {
            return Err(Refusal::Disabled);
        }
        let entry = Entry {
            to: Mode::MONITOR,
            offset: offset::CALL,
            link: pc.wrapping_add(4),
        };
        send(block, status, entry)
    }
}

pub struct Hvc;

impl Rule for Hvc {
    ghost code = { codes.HVC };

    fn apply(
        block: &mut [u8; BLOCK_SIZE],
        operands: Operands,
        status: Status,
    ) -> Result<Verdict, Refusal> {
        if !operands.are_within(ZERO_ONLY) {
            return Err(Refusal::BadEvent);
        }
        if status.mode() == Mode::USER {
            return Err(Refusal::NotHere);
        }
        if status.is_secure() {
            return Err(Refusal::NotHere);
        }
        if !is_set::<SCR_HCE>(status.scr) {
            return Err(Refusal::Disabled);
        }
        let next = get_word(block, place::PC).wrapping_add(4);
        send(block, status, hyp_entry(status, offset::CALL, next))
    }
}

// What the link of an abort has added, by its offset.
fn added(own: u32) -> u32
    ensures { result ≡ abort_more own }
{
    if own == offset::PREFETCH_ABORT { 4 } else { 8 }
}

// Either abort, by its own offset, with operands in their range.
#[inline(always)]
fn abort(block: &mut [u8; BLOCK_SIZE], status: Status, a: u32, own: u32) -> Result<Verdict, Refusal>
    requires { ReadFrom block.old status × (own < 32) }
    ensures { CameTo block.old
        (taken_by Synchronous
        (abort_way own (abort_more own) a status.cpsr status.scr (word block.old hcr_place) (word block.old pc_place)))
        result block.new }
{
    if lacks_stage2(a, status) {
        return Err(Refusal::NotHere);
    }
    let pc = get_word(block, place::PC);
    if is_set::<EXTERNAL>(a) & is_set::<SCR_EA>(status.scr) {
        let entry = Entry {
            to: Mode::MONITOR,
            offset: own,
            link: pc.wrapping_add(added(own)),
        };
        return send(block, status, entry);
    }
    if is_set::<STAGE_2>(a) {
        return send(block, status, hyp_entry(status, own, pc));
    }
    if general_to_hyp(status, get_word(block, place::HCR)) {
        return send(block, status, hyp_entry(status, own, pc));
    }
    let entry = Entry {
        to: Mode::ABORT,
        offset: own,
        link: pc.wrapping_add(added(own)),
    };
    send(block, status, entry)
}

pub struct PrefetchAbort;

impl Rule for PrefetchAbort {
    ghost code = { codes.PREFETCH_ABORT };

    fn apply(
        block: &mut [u8; BLOCK_SIZE],
        operands: Operands,
        status: Status,
    ) -> Result<Verdict, Refusal> {
        if !operands.are_within(PREFETCH_VALUES) {
            return Err(Refusal::BadEvent);
        }
        let routed = routed_a(operands.a, status, get_word(block, place::HDCR));
        abort(block, status, routed, offset::PREFETCH_ABORT)
    }
}

pub struct DataAbort;

impl Rule for DataAbort {
    ghost code = { codes.DATA_ABORT };

    fn apply(
        block: &mut [u8; BLOCK_SIZE],
        operands: Operands,
        status: Status,
    ) -> Result<Verdict, Refusal> {
        if !operands.are_within(ABORT_VALUES) {
            return Err(Refusal::BadEvent);
        }
        abort(block, status, operands.a, offset::DATA_ABORT)
    }
}

pub struct HypTrap;

impl Rule for HypTrap {
    ghost code = { codes.HYP_TRAP };

    fn apply(
        block: &mut [u8; BLOCK_SIZE],
        operands: Operands,
        status: Status,
    ) -> Result<Verdict, Refusal> {
        if !operands.are_within(ZERO_ONLY) {
            return Err(Refusal::BadEvent);
        }
        if status.is_secure() {
            return Err(Refusal::NotHere);
        }
        if status.mode() == Mode::HYP {
            return Err(Refusal::NotHere);
        }
        let entry = Entry {
            to: Mode::HYP,
            offset: offset::HYP_TRAP,
            link: get_word(block, place::PC),
        };
        send(block, status, entry)
    }
}

pub struct MonitorTrap;

impl Rule for MonitorTrap {
    ghost code = { codes.MONITOR_TRAP };

    fn apply(
        block: &mut [u8; BLOCK_SIZE],
        operands: Operands,
        status: Status,
    ) -> Result<Verdict, Refusal> {
        if !operands.are_within(ZERO_ONLY) {
            return Err(Refusal::BadEvent);
        }
        if status.mode() == Mode::MONITOR {
            return Err(Refusal::NotHere);
        }
        let entry = Entry {
            to: Mode::MONITOR,
            offset: offset::MONITOR_TRAP,
            link: get_word(block, place::PC).wrapping_add(narrow_of(status.cpsr)),
        };
        send(block, status, entry)
    }
}
