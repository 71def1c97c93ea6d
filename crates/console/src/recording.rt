// A recorder of our own, for C.
ghost use Rattle.records.specs.Layout.{new_layout};
ghost use Rattle.recorder.specs.Recorded.{Recorded};

use recorder::{begin, finish, go_on};
use rules::event::Event;
use state::refusal::DONE;

// The trace of the events from the block on, written into the buffer from the offset on: DONE, whatever each of them answers. A
// block not of 180 bytes, more than 65,535 events, and too little room, in this order, are refused and change nothing.
#[unsafe(no_mangle)]
pub extern "C" fn pomurica_record(
    block: &[u8],
    events: &[Event],
    buffer: &mut [u8],
    offset: usize,
) -> u32
    ensures { Recorded new_layout block.now events.now buffer.old offset result buffer.new }
{
    if let Err(refusal) = begin(block, events.len(), buffer, offset) {
        return refusal.number();
    }
    for (i, e) in events.iter().enumerate() {
        go_on(buffer, offset, i, *e);
    }
    finish(buffer, offset, events.len());
    DONE
}
