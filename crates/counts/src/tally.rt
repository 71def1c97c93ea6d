// What the Steps of one trace add to each word. A trace has at most 65,535 Steps, so that no word of a tally overflows.
ghost use Rattle.std.specs.Prelude.{◌≡◌, ◌+◌, ◌≤◌, length, drop, if◌then◌else◌};
ghost use Rattle.entry.specs.Code.{is_known, is_synchronous};
ghost use Rattle.records.specs.Layout.{start_size, most_steps, place_of, block_after_at};
ghost use Rattle.records.specs.Which.{its};
ghost use Rattle.counts.specs.Counts.{WORDS, GROUP_SIZE as group_size};
ghost use Rattle.counts.specs.Parts.{
  shown_step,
  shown_steps,
  step_of,
  target_number,
  taken_number,
  or_nowhere,
  bumped,
  Tally,
  Counted,
  Gains,
};

use crate::places::GROUP_SIZE;
use entry::code;
use records::layout;
use records::layout::Layout;
use state::refusal::DONE;
use words::{get_word, put_word, word_at};

// The first number that has no word in its group.
const NOWHERE: u32 = GROUP_SIZE as u32;

// Where the groups begin: Steps by code and by answer, entries by target mode, checks by what they took.
const BY_CODE: usize = 0;

const BY_ANSWER: usize = GROUP_SIZE;

const BY_TARGET: usize = 2 * GROUP_SIZE;

const BY_TAKEN: usize = 3 * GROUP_SIZE;

// One more under this number of a group; a number without a word counts nowhere. No word overflows: a Step finds
// none above 65,535 and bumps four times, so that before the last of them none is above 65,538.
#[tactic(auto, unfolding(crate::specs::Parts::bumped))]
fn bump(gains: &mut [u8], first: usize, number: u32)
    requires { (first + group_size ≤ WORDS) × Tally 65538 gains.old }
    ensures { gains.new ≡ bumped gains.old first number }
{
    if number < NOWHERE {
        let at = first + (number as usize);
        put_word(gains, at, get_word(gains, at) + 1);
    }
}

// The same under the number that there may be.
#[tactic(auto, unfolding(crate::specs::Parts::bumped))]
fn bump_if(gains: &mut [u8], first: usize, number: Option<u32>)
    requires { (first + group_size ≤ WORDS) × Tally 65538 gains.old }
    ensures { gains.new ≡ bumped gains.old first (or_nowhere number) }
{
    if let Some(number) = number {
        bump(gains, first, number);
    }
}

// The number that a code counts under: its own, and 0 for one that the rules do not know.
fn code_number(code: u32) -> u32
    ensures { result ≡ (if is_known code then code else 0) }
{
    if code <= code::RETURN { code } else { 0 }
}

fn is_synchronous(code: u32) -> bool
    ensures { result ≡ is_synchronous code }
{
    code::UNDEFINED_INSTRUCTION <= code && code <= code::MONITOR_TRAP
}

// The number that an answer counts under among the entries: the target mode of an entry.
#[tactic(auto, unfolding(crate::specs::Parts::target_number))]
fn target_number(code: u32, number: u32, value: u32) -> Option<u32>
    ensures { or_nowhere result ≡ target_number (step_of code number value) }
{
    if number != DONE {
        return None;
    }
    if is_synchronous(code) {
        return Some(value / 256 % 256);
    }
    if code != code::INTERRUPT_CHECK {
        return None;
    }
    if value == 0 {
        return None;
    }
    Some(value / 256 % 256)
}

// The same among the done interrupt checks: which exception was taken, 0 for none.
#[tactic(auto, unfolding(crate::specs::Parts::taken_number))]
fn taken_number(code: u32, number: u32, value: u32) -> Option<u32>
    ensures { or_nowhere result ≡ taken_number (step_of code number value) }
{
    if number != DONE {
        return None;
    }
    if code != code::INTERRUPT_CHECK {
        return None;
    }
    Some(value / 65536)
}

// The Step of either layout that these bytes begin with, counted in each group that it belongs to.
fn count_step(r: &[u8], gains: &mut [u8])
    requires { (block_after_at ≤ length r.now) × Tally 65535 gains.old }
    ensures { Counted gains.old (shown_step r.now) gains.new }
{
    let code = word_at(r, layout::CODE);
    let number = word_at(r, layout::NUMBER);
    let value = word_at(r, layout::VALUE);
    bump(gains, BY_CODE, code_number(code));
    bump(gains, BY_ANSWER, number);
    bump_if(gains, BY_TARGET, target_number(code, number, value));
    bump_if(gains, BY_TAKEN, taken_number(code, number, value));
}

// All Steps of a trace that has so many, in a layout.
pub(crate) fn count_steps(layout: Layout, trace: &[u8], steps: u32, gains: &mut [u8])
    requires { (steps ≤ most_steps) × (place_of (its layout) steps ≤ length trace.now) × Tally 0 gains.old }
    ensures { Gains (shown_steps (its layout) steps (drop (start_size (its layout)) trace.now)) gains.new }
{
    for k in 0..steps {
        count_step(&trace[layout.place_of(k) as usize..], gains);
    }
}
