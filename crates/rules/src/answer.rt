// The answer to a step (document 01, "Answer numbers"): of a done one its verdict, as number and value; of any other its refusal.
ghost use Rattle.std.specs.Prelude.{◌≡◌};
ghost use Rattle.rules.specs.Parts.{Small, SmallOutcome, answer_of, Told};
ghost use Rattle.rules.specs.Verdict.{value};

use crate::verdict::{Answer, Verdict};
use interrupts::exception::which_of;
use state::refusal::{DONE, Refusal};
use words::put_word;

// The bytes of an answer buffer.
pub const ANSWER_SIZE: usize = 8;

// The places of the two words of an answer.
pub const NUMBER: usize = 0;

pub const VALUE: usize = 1;

// The value that tells a verdict.
#[tactic(auto, unfolding(crate::specs::Verdict::value))]
fn value_of(v: Verdict) -> u32
    requires { Small v }
    ensures { result ≡ value v }
{
    match v {
        Verdict::Entry {
            which,
            mode,
            offset,
        } => which_of(which) * 65536 + mode.number * 256 + offset,
        Verdict::Register(w) => w,
        Verdict::NothingTaken(_) | Verdict::Written(_) | Verdict::Returned(_) => 0,
    }
}

// The number and the value of what came of an event.
pub fn answer_of(outcome: Result<Verdict, Refusal>) -> Answer
    requires { SmallOutcome outcome }
    ensures { result ≡ answer_of outcome }
{
    match outcome {
        Ok(verdict) => Answer {
            number: DONE,
            value: value_of(verdict),
        },
        Err(refusal) => Answer {
            number: refusal.number(),
            value: 0,
        },
    }
}

// An answer in its buffer, number and value, four bytes each; the number is returned too.
#[tactic(auto, using(crate::proofs::Buffer::two_words))]
pub fn put_answer(buffer: &mut [u8; ANSWER_SIZE], answer: Answer) -> u32
    ensures { Told answer result buffer.new }
{
    put_word(buffer, NUMBER, answer.number);
    put_word(buffer, VALUE, answer.value);
    answer.number
}

// The same of what came of an event.
pub fn tell(buffer: &mut [u8; ANSWER_SIZE], outcome: Result<Verdict, Refusal>) -> u32
    requires { SmallOutcome outcome }
    ensures { Told (answer_of outcome) result buffer.new }
{
    put_answer(buffer, answer_of(outcome))
}
