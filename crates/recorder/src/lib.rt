// The recorder (document 02, No. 7): its checks, and the writers of Start, Step and End, each on its part of the buffer.
//
// The records stand one behind the other, and a Start ends, as a Step does, in the block that the next Step goes from. So a recording
// needs no block of its own: the one before a Step is copied to its place in the new record, and stepped there.
#![tactic(auto)]

ghost use Rattle.std.specs.Prelude.{◌≡◌, ◌++◌, ◌+◌, ◌≤◌, length, take, drop, if◌then◌else◌};
ghost use Rattle.std.specs.List.{copy_within};
ghost use Rattle.state.specs.Choice.{◌is◌};
ghost use Rattle.records.specs.Layout.{new_layout, start_size, step_size, end_size, most_steps, place_of, number_at, block_after_at};
ghost use Rattle.records.specs.Published.{head, event_bytes, start_record, step_record, end_record};
ghost use Rattle.state.specs.Refusal.{number_of};
ghost use Rattle.recorder.specs.Recorded.{DONE, written_at, block_before, trace_size, record_number};

use machine::step::step_event;
use records::layout;
use rules::event::Event;
use rules::known::direct_code;
use state::place::BLOCK_SIZE;
use state::refusal::Refusal;
use words::put_word;
use words::runs::copy;

// The bytes of the records.
const START_SIZE: usize = layout::START_SIZE as usize;

const STEP_SIZE: usize = layout::STEP_SIZE as usize;

const END_SIZE: usize = layout::END_SIZE as usize;

// The words of a record, in order: its head; the count of a Start and of an End; of a Step the event.
const HEAD: usize = 0;

const COUNT: usize = 1;

const CODE: usize = 1;

const A: usize = 2;

const B: usize = 3;

// The words of a Step's answer, and where the block after it begins and ends, in a part that begins with the block before it.
const NUMBER: usize = (BLOCK_SIZE + layout::NUMBER) / 4;

const VALUE: usize = (BLOCK_SIZE + layout::VALUE) / 4;

const AFTER: usize = BLOCK_SIZE + layout::BLOCK_AFTER;

const AFTER_END: usize = AFTER + BLOCK_SIZE;

// As many bytes of a block as the compiler moves without a call.
const FRONT: usize = 128;

// ---- the checks

fn trace_size(events: usize) -> usize
    requires { events ≤ most_steps }
    ensures { result ≡ trace_size new_layout events }
{
    START_SIZE + (STEP_SIZE * events + END_SIZE)
}

// What refuses a recording, by the lengths of the block, the list of events and the buffer. The room is found by subtraction: a sum
// with the offset could wrap.
fn judge(block: usize, events: usize, buffer: usize, offset: usize) -> Result<(), Refusal>
    ensures { number_of result ≡ record_number new_layout block events buffer offset }
{
    if block != BLOCK_SIZE {
        return Err(Refusal::BadSize);
    }
    if (layout::MOST_STEPS as usize) < events {
        return Err(Refusal::BadCount);
    }
    if buffer < offset {
        return Err(Refusal::NoRoom);
    }
    if buffer - offset < trace_size(events) {
        return Err(Refusal::NoRoom);
    }
    Ok(())
}

// ---- the writers, each on a part that begins with its record, a Step's with the block before it

fn put_start(part: &mut [u8], count: u32, block: &[u8])
    requires { (length block.now ≡ new_layout.size) × (start_size new_layout ≤ length part.old) }
    ensures { part.new ≡ start_record new_layout count block.now ++ drop (start_size new_layout) part.old }
{
    put_word(part, HEAD, layout::START_SIZE + 65536 * layout::START_KIND);
    put_word(part, COUNT, count);
    copy(block, &mut part[layout::START_BLOCK..]);
}

// What a Step says before its answer: its head and its event.
fn put_event(part: &mut [u8], e: Event)
    requires { number_at ≤ length part.old }
    ensures { part.new ≡ (head (step_size new_layout) new_layout.step_kind ++ event_bytes e) ++ drop number_at part.old }
{
    put_word(part, HEAD, layout::STEP_SIZE + 65536 * layout::STEP_KIND);
    put_word(part, CODE, e.code);
    put_word(part, A, e.a);
    put_word(part, B, e.b);
}

// The block in front, copied to where the block after goes. In two parts: the compiler makes moves of each, and a call of a longer one.
fn copy_block(part: &mut [u8])
    requires { new_layout.size + step_size new_layout ≤ length part.old }
    ensures { part.new ≡ copy_within part.old 0 new_layout.size (new_layout.size + block_after_at) }
{
    part.copy_within(..FRONT, AFTER);
    part.copy_within(FRONT..BLOCK_SIZE, AFTER + FRONT);
}

// The block is stepped where the block after goes. The event is put before it is stepped: so the compiler need not keep its words through
// the step.
fn put_step(part: &mut [u8], e: Event)
    requires { new_layout.size + step_size new_layout ≤ length part.old }
    ensures { part.new ≡ written_at part.old new_layout.size
        (step_record new_layout (take new_layout.size part.old) e) }
{
    copy_block(part);
    put_event(&mut part[BLOCK_SIZE..], e);
    let seen = Event {
        code: direct_code(e.code, e.a),
        a: e.a,
        b: e.b,
    };
    let answer = step_event(&mut part[AFTER..AFTER_END], seen);
    put_word(part, NUMBER, answer.number);
    put_word(part, VALUE, answer.value);
}

fn put_end(part: &mut [u8], count: u32)
    requires { end_size ≤ length part.old }
    ensures { part.new ≡ end_record count ++ drop end_size part.old }
{
    put_word(part, HEAD, layout::END_SIZE + 65536 * layout::END_KIND);
    put_word(part, COUNT, count);
}

// ---- the records, each from a place of the buffer on

// The checks, and where they are passed the Start, from the offset on.
pub fn begin(block: &[u8], events: usize, buffer: &mut [u8], offset: usize) -> Result<(), Refusal>
    ensures number { number_of result ≡ record_number new_layout (length block.now) events (length buffer.old) offset }
    ensures buffer { buffer.new
        ≡ (if number_of result is DONE then written_at buffer.old offset (start_record new_layout events block.now) else buffer.old) }
{
    judge(block.len(), events, buffer.len(), offset)?;
    put_start(&mut buffer[offset..], events as u32, block);
    Ok(())
}

// The Step behind so many others, and behind the block that it goes from.
pub fn go_on(buffer: &mut [u8], offset: usize, steps: usize, e: Event)
    requires { offset + place_of new_layout steps + step_size new_layout ≤ length buffer.old }
    ensures { buffer.new ≡ written_at buffer.old (offset + place_of new_layout steps)
        (step_record new_layout (block_before new_layout (offset + place_of new_layout steps) buffer.old) e) }
{
    let before = offset + (layout::START_BLOCK + STEP_SIZE * steps);
    put_step(&mut buffer[before..], e);
}

// The End, behind all Steps.
pub fn finish(buffer: &mut [u8], offset: usize, steps: usize)
    requires { (offset + place_of new_layout steps + end_size ≤ length buffer.old) × (steps ≤ most_steps) }
    ensures { buffer.new ≡ written_at buffer.old (offset + place_of new_layout steps) (end_record steps) }
{
    let place = offset + (START_SIZE + STEP_SIZE * steps);
    put_end(&mut buffer[place..], steps as u32);
}
