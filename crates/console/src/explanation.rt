// The explanation of a wrong Step, for C.
ghost use Rattle.std.specs.Prelude.{◌≡◌};
ghost use Rattle.console.specs.Explain.{explain_returns, explain_leaves};

use state::refusal::Refusal;
use words::put_word;

const EXPLANATION_SIZE: usize = 24;

// Where the six words of an explanation stand.
const NUMBER: usize = 0;

const PLACE: usize = 1;

const STEPS: usize = 2;

const PART: usize = 3;

const FOUND: usize = 4;

const DUE: usize = 5;

// Returns the number, and writes number, place, Steps, part, found and due. An explanation that is not 24 bytes answers
// BAD_SIZE and keeps every byte.
#[tactic(auto, unfolding(crate::specs::Explain::explain_returns, crate::specs::Explain::explain_leaves))]
#[unsafe(no_mangle)]
pub extern "C" fn pomurica_explain(trace: &[u8], explanation: &mut [u8]) -> u32
    ensures returns { result ≡ explain_returns trace.now explanation.old }
    ensures leaves { explanation.new ≡ explain_leaves trace.now explanation.old }
{
    if explanation.len() != EXPLANATION_SIZE {
        return Refusal::BadSize.number();
    }
    let x = explain::explain(trace);
    put_word(explanation, NUMBER, x.number);
    put_word(explanation, PLACE, x.place);
    put_word(explanation, STEPS, x.steps);
    put_word(explanation, PART, x.part);
    put_word(explanation, FOUND, x.found);
    put_word(explanation, DUE, x.due);
    x.number
}
