// What is said of a Start, of a Step and of an End, each by the rest of the trace from the record's first byte on: why it is refused, if
// it is.
#![tactic(auto)]

ghost use Rattle.std.specs.Prelude.{◌≡◌, true, ◌↔◌, ◌≤◌, ◌<◌, ◌^◌, length};
ghost use Rattle.records.specs.Judged.{narrow, IsWide, Shows, ShowsBehind, JudgedWide, Went, in_numbers};
ghost use Rattle.records.specs.Layout.{step_size};
ghost use Rattle.records.specs.Report.{head_number, start_number, end_number};
ghost use Rattle.records.specs.Which.{old, its};
ghost use Rattle.state.specs.Refusal.{number_of};

use machine::step::step_event;
use records::layout;
use records::layout::Layout;
use records::run::Run;
use rules::verdict::Answer;
use state::place::{BLOCK_SIZE, OLD_BLOCK_SIZE};
use state::refusal::{DONE, Refusal};
use words::runs::copy;
use words::{runs, word_at};

// The number of a record, and of a trace, without a fault.
pub const ACCEPTED: u32 = DONE;

// The head of the record due, of this size and kind. Its two halves are compared as one word.
pub fn judge_head(r: &[u8], size: u32, kind: u32) -> Result<(), Refusal>
    requires { (size < 2 ^ 16) × (kind < 2 ^ 16) }
    ensures { number_of result ≡ head_number size kind r.now }
{
    if r.len() < layout::HEAD_SIZE {
        return Err(Refusal::Short);
    }
    if word_at(r, 0) != size + 65536 * kind {
        return Err(Refusal::BadRecord);
    }
    if r.len() < (size as usize) {
        return Err(Refusal::Short);
    }
    Ok(())
}

#[tactic(auto, using(records::proofs::Faults::head_whole), unfolding(records::specs::Report::start_number))]
pub fn judge_start(layout: Layout, r: &[u8]) -> Result<(), Refusal>
    ensures { number_of result ≡ start_number (its layout) r.now }
{
    judge_head(r, layout.start_size(), layout.start_kind())?;
    if layout::MOST_STEPS < word_at(r, layout::COUNT) {
        return Err(Refusal::BadCount);
    }
    Ok(())
}

// Whether a whole Step shows HDCR of this block of the machine's, which an old one has not.
fn shows_hdcr(layout: Layout, r: &[u8], block: &[u8; BLOCK_SIZE]) -> bool
    requires { step_size (its layout) ≤ length r.now }
    ensures { (result ≡ true) ↔ ShowsBehind (old layout) r.now block.now }
{
    match layout {
        Layout::Old => true,
        Layout::New => runs::same(
            &r[layout::OLD_STEP_SIZE as usize..layout::STEP_SIZE as usize],
            &block[OLD_BLOCK_SIZE..],
        ),
    }
}

// Whether it shows this answer and, of this block, what its layout has.
fn shows(layout: Layout, r: &[u8], answer: Answer, block: &[u8; BLOCK_SIZE]) -> bool
    requires { step_size (its layout) ≤ length r.now }
    ensures { (result ≡ true) ↔ Shows (its layout) r.now answer (narrow (old layout) block.now) }
{
    if word_at(r, layout::NUMBER) != answer.number {
        return false;
    }
    if word_at(r, layout::VALUE) != answer.value {
        return false;
    }
    if !shows_hdcr(layout, r, block) {
        return false;
    }
    runs::same(
        &r[layout::BLOCK_AFTER..layout::OLD_STEP_SIZE as usize],
        &block[..OLD_BLOCK_SIZE],
    )
}

// A Step after the block before, the machine's, which becomes the block after where the Step is right.
#[tactic(auto, using(records::proofs::Faults::head_whole), unfolding(records::specs::Report::step_number))]
fn judge_step(layout: Layout, r: &[u8], block: &mut [u8; BLOCK_SIZE]) -> Result<(), Refusal>
    requires { IsWide (old layout) block.old }
    ensures { JudgedWide (old layout) r.now block.old (number_of result) block.new }
{
    judge_head(r, layout.step_size(), layout.step_kind())?;
    let answer = step_event(block, layout.event_of(r));
    if !shows(layout, r, answer, block) {
        return Err(Refusal::WrongStep);
    }
    Ok(())
}

// So many Steps, one behind the other from the front of r on, until one is wrong.
fn judge_each(layout: Layout, r: &[u8], count: u32, block: &mut [u8; BLOCK_SIZE]) -> Run
    requires { IsWide (old layout) block.old }
    ensures { Went (its layout) r.now count (narrow (old layout) block.old) (in_numbers result)
        (narrow (old layout) block.new) }
{
    let size = layout.step_size() as usize;
    for right in 0..count {
        let outcome = judge_step(layout, &r[size * right as usize..], block);
        if outcome.is_err() {
            return Run { right, outcome };
        }
    }
    Run {
        right: count,
        outcome: Ok(()),
    }
}

// As `judge_each`, on a block of its own, in which HDCR is 0 behind an old one. Whoever judges Steps calls this, so that the judgement
// of one has one caller, and the compiler makes it a part of the loop; and of its own block the compiler knows how it lies.
pub fn judge_steps(layout: Layout, r: &[u8], count: u32, block: &mut [u8]) -> Run
    requires { length block.old ≡ (its layout).size }
    ensures { Went (its layout) r.now count block.old (in_numbers result) block.new }
{
    let mut own = [0u8; BLOCK_SIZE];
    copy(block, &mut own);
    let run = judge_each(layout, r, count, &mut own);
    copy(&own[..layout.block_size()], block);
    run
}

#[tactic(auto, using(records::proofs::Faults::head_whole), unfolding(records::specs::Report::end_number))]
pub fn judge_end(r: &[u8], steps: u32) -> Result<(), Refusal>
    ensures { number_of result ≡ end_number steps r.now }
{
    judge_head(r, layout::END_SIZE, layout::END_KIND)?;
    if word_at(r, layout::COUNT) != steps {
        return Err(Refusal::BadCount);
    }
    Ok(())
}
