// One step: an event on a lent block (document 01, "Answer numbers"). The block is judged once, then the code says which
// event it is, and the event's own rule does the rest.
//
// `step` is C's, `replay` that of the checker, the explanation and the recorder, `advance` that of a batch. Each has a dispatch of
// its own, made of one function by its const parameter: the compiler makes a function that is called from one place part of that
// place, and with one dispatch for all, every step would save and restore the registers of the dearest event (docs/DECISIONS.md,
// "Shape").
//
// The machine knows every event, and so do `replay` and `step_event`; `step` and `advance`, which are direct, do not know the virtual lines
// (document 02, No. 13). Who goes over a trace says which events its layout knows (`rules::known`).
ghost use Rattle.std.specs.Prelude.{◌≡◌, ◌<◌, ◌^◌, length};
ghost use Rattle.state.specs.Place.{BLOCK_SIZE as block_size};
ghost use Rattle.rules.specs.Known.{direct};
ghost use Rattle.rules.specs.Parts.{Ready, Carried};
ghost use Rattle.rules.specs.Step.{
  ANSWER_SIZE as answer_size,
  action,
  answer,
  after,
  number_returned,
  block_left,
  answer_left,
};

use access::{BankedRead, BankedWrite, Note};
use entry::code;
use exception_return::ExceptionReturn;
use interrupt_check::InterruptCheck;
pub use rules::answer::ANSWER_SIZE;
use rules::answer::{NUMBER, VALUE, tell};
use rules::event::{Event, Operands};
use rules::known::direct_code;
use rules::rule::Rule;
use rules::verdict::Answer;
use state::place;
use state::place::BLOCK_SIZE;
use state::refusal::Refusal;
use state::state::Status;
use synchronous::{
    DataAbort, Hvc, HypTrap, MonitorTrap, PrefetchAbort, Smc, Svc, UndefinedInstruction,
};
use words::get_word;

// An event by its rule, its answer told. The compiler makes one function of this and the rule, which all dispatches reach by a jump; the
// order of its operands is that in which a dispatch comes to know them.
#[inline(never)]
fn told<R: Rule>(
    block: &mut [u8; BLOCK_SIZE],
    operands: Operands,
    status: Status,
    buffer: &mut [u8; ANSWER_SIZE],
) -> u32
    requires { Ready block.old status }
    ensures { Carried block.old (action block.old (record { code = R.code; a = operands.a; b = operands.b })) result block.new
        buffer.new }
{
    tell(buffer, R::apply(block, operands, status))
}

// Whose dispatch it is.
const FROM_C: u32 = 0;

const OF_A_TRACE: u32 = 1;

const OF_A_LIST: u32 = 2;

// One event on a block, over an answer buffer; the number is returned too.
#[tactic(auto, unfolding(state::specs::State::fault))]
fn dispatch<const WHOSE: u32>(
    block: &mut [u8; BLOCK_SIZE],
    operands: Operands,
    code: u32,
    buffer: &mut [u8; ANSWER_SIZE],
) -> u32
    ensures { Carried block.old (action block.old (record { code = code; a = operands.a; b = operands.b })) result block.new
        buffer.new }
{
    let status = Status {
        cpsr: get_word(block, place::CPSR),
        scr: get_word(block, place::SCR),
    };
    if let Err(fault) = status.judge(get_word(block, place::HCR)) {
        return tell(buffer, Err(fault));
    }
    match code {
        code::UNDEFINED_INSTRUCTION => told::<UndefinedInstruction>(
            block, operands, status, buffer,
        ),
        code::SVC => told::<Svc>(block, operands, status, buffer),
        code::SMC => told::<Smc>(block, operands, status, buffer),
        code::HVC => told::<Hvc>(block, operands, status, buffer),
        code::PREFETCH_ABORT => told::<PrefetchAbort>(block, operands, status, buffer),
        code::DATA_ABORT => told::<DataAbort>(block, operands, status, buffer),
        code::HYP_TRAP => told::<HypTrap>(block, operands, status, buffer),
        code::MONITOR_TRAP => told::<MonitorTrap>(block, operands, status, buffer),
        code::INTERRUPT_CHECK => told::<InterruptCheck>(block, operands, status, buffer),
        code::BANKED_READ => told::<BankedRead>(block, operands, status, buffer),
        code::BANKED_WRITE => told::<BankedWrite>(block, operands, status, buffer),
        code::NOTE => told::<Note>(block, operands, status, buffer),
        code::RETURN => told::<ExceptionReturn>(block, operands, status, buffer),
        _ => tell(buffer, Err(Refusal::BadEvent)),
    }
}

// A step over a lent answer buffer, by the dispatch `WHOSE`; the number is returned too. On BAD_SIZE neither changes.
#[inline(always)]
fn step_over<const WHOSE: u32>(
    block: &mut [u8],
    code: u32,
    operands: Operands,
    buffer: &mut [u8],
) -> u32
    ensures number { result ≡ number_returned block.old (record { code = code; a = operands.a; b = operands.b }) buffer.old }
    ensures leaves { block.new ≡ block_left block.old (record { code = code; a = operands.a; b = operands.b }) buffer.old }
    ensures answers { buffer.new ≡ answer_left block.old (record { code = code; a = operands.a; b = operands.b }) buffer.old }
    ensures fits { length block.old ≡ block_size → length buffer.old ≡ answer_size
        → (answer block.old (record { code = code; a = operands.a; b = operands.b })).value < 2 ^ 32 }
{
    let Some(block) = block.as_mut_array::<BLOCK_SIZE>() else {
        return Refusal::BadSize.number();
    };
    let Some(buffer) = buffer.as_mut_array::<ANSWER_SIZE>() else {
        return Refusal::BadSize.number();
    };
    dispatch::<WHOSE>(block, operands, code, buffer)
}

// A direct step, for C.
pub fn step(block: &mut [u8], code: u32, a: u32, b: u32, buffer: &mut [u8]) -> u32
    ensures number { result ≡ number_returned block.old (direct (record { code = code; a = a; b = b })) buffer.old }
    ensures leaves { block.new
        ≡ block_left block.old (direct (record { code = code; a = a; b = b })) buffer.old }
    ensures answers { buffer.new
        ≡ answer_left block.old (direct (record { code = code; a = a; b = b })) buffer.old }
{
    step_over::<FROM_C>(block, direct_code(code, a), Operands { a, b }, buffer)
}

// The machine's step, of any event, over a lent answer buffer; its value is a word.
#[inline(always)]
pub fn replay(block: &mut [u8], code: u32, a: u32, b: u32, buffer: &mut [u8]) -> u32
    ensures number { result ≡ number_returned block.old (record { code = code; a = a; b = b }) buffer.old }
    ensures leaves { block.new ≡ block_left block.old (record { code = code; a = a; b = b }) buffer.old }
    ensures answers { buffer.new ≡ answer_left block.old (record { code = code; a = a; b = b }) buffer.old }
    ensures fits { length block.old ≡ block_size → length buffer.old ≡ answer_size
        → (answer block.old (record { code = code; a = a; b = b })).value < 2 ^ 32 }
{
    step_over::<OF_A_TRACE>(block, code, Operands { a, b }, buffer)
}

// The same with the event and the answer as values, on a block of any size, for who goes over a trace again.
#[inline(always)]
pub fn step_event(block: &mut [u8], e: Event) -> Answer
    ensures answers { result ≡ answer block.old e }
    ensures leaves { block.new ≡ after block.old e }
{
    let mut buffer = [0u8; ANSWER_SIZE];
    let number = replay(block, e.code, e.a, e.b, &mut buffer);
    Answer {
        number,
        value: get_word(&buffer, VALUE),
    }
}

// What came of an event, on a block of any size, by the dispatch `WHOSE`. Both words are read back from the buffer: they go on as one.
#[inline(always)]
fn answer_in<const WHOSE: u32>(block: &mut [u8], code: u32, operands: Operands) -> Answer
    ensures answers { result ≡ answer block.old (record { code = code; a = operands.a; b = operands.b }) }
    ensures leaves { block.new ≡ after block.old (record { code = code; a = operands.a; b = operands.b }) }
{
    let Some(block) = block.as_mut_array::<BLOCK_SIZE>() else {
        return Answer {
            number: Refusal::BadSize.number(),
            value: 0,
        };
    };
    let mut buffer = [0u8; ANSWER_SIZE];
    dispatch::<WHOSE>(block, operands, code, &mut buffer);
    Answer {
        number: get_word(&buffer, NUMBER),
        value: get_word(&buffer, VALUE),
    }
}

// A direct step, for who goes through a list of events.
#[inline(always)]
pub fn advance(block: &mut [u8], e: Event) -> Answer
    ensures answers { result ≡ answer block.old (direct e) }
    ensures leaves { block.new ≡ after block.old (direct e) }
{
    answer_in::<OF_A_LIST>(block, direct_code(e.code, e.a), Operands { a: e.a, b: e.b })
}
