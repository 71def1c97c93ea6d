// The counts of many traces, and their lines, for C.
ghost use Rattle.std.specs.Prelude.{◌≡◌};
ghost use Rattle.counts.specs.Counts.{count_returns_of, count_leaves_of};
ghost use Rattle.console.specs.Count.{text_returns, text_leaves, text_answers};

use rules::answer::{ANSWER_SIZE, put_answer};
use rules::verdict::Answer;
use state::refusal::{DONE, Refusal};

// Returns the number: DONE where the trace was counted; any other leaves every byte of the counts.
#[unsafe(no_mangle)]
pub extern "C" fn pomurica_count(trace: &[u8], counts: &mut [u8]) -> u32
    ensures returns { result ≡ count_returns_of trace.now counts.old }
    ensures leaves { counts.new ≡ count_leaves_of trace.now counts.old }
{
    counts::count::count(trace, counts)
}

// Returns the number, and writes it with the size of the text. On BAD_SIZE neither buffer changes, on NO_ROOM the text's does
// not.
#[tactic(auto, using(crate::proofs::Telling::size_small), unfolding(crate::proofs::Telling::lining))]
#[unsafe(no_mangle)]
pub extern "C" fn pomurica_count_lines(counts: &[u8], lines: &mut [u8], answer: &mut [u8]) -> u32
    ensures returns { result ≡ text_returns counts.now lines.old answer.old }
    ensures leaves { lines.new ≡ text_leaves counts.now lines.old answer.old }
    ensures answers { answer.new ≡ text_answers counts.now lines.old answer.old }
{
    let Some(answer) = answer.as_mut_array::<ANSWER_SIZE>() else {
        return Refusal::BadSize.number();
    };
    let (number, size) = match count_lines::put_lines(counts, lines) {
        Ok(size) => (DONE, size as u32),
        Err(Refusal::BadSize) => return Refusal::BadSize.number(),
        Err(refusal) => (refusal.number(), 0),
    };
    let told = Answer {
        number,
        value: size,
    };
    put_answer(answer, told)
}
