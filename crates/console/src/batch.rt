// Many events in one call, for C.
ghost use Rattle.console.specs.Batch.{Batched};

use machine::step::advance;
use rules::event::Event;
use rules::verdict::Answer;
use state::place::BLOCK_SIZE;
use state::refusal::{DONE, Refusal};

// The events one after another, each with its answer: DONE, whatever each of them answers. Lists of unequal lengths, and a
// block not of 180 bytes, answer BAD_SIZE and change nothing.
#[unsafe(no_mangle)]
pub extern "C" fn pomurica_batch(events: &[Event], answers: &mut [Answer], block: &mut [u8]) -> u32
    ensures { Batched events.now answers.old block.old result answers.new block.new }
{
    if events.len() != answers.len() || block.len() != BLOCK_SIZE {
        return Refusal::BadSize.number();
    }
    for (i, e) in events.iter().enumerate() {
        answers[i] = advance(block, *e);
    }
    DONE
}
