// What is wrong with a trace that is refused with WRONG_STEP: which part of that Step differs first from what the rules
// give from the block before it, the word found there and the word due.
//
// The block before is not stepped to again: the records before the Step were judged right, so it is the last bytes before
// the Step, the start block or the block after of the Step before. It is stepped as the machine has it, an old one with HDCR 0
// behind it; and of the block after as much is compared as its layout has.
#![tactic(auto)]

ghost use Rattle.std.specs.Prelude.{◌≡◌, ◌+◌, ◌-◌, ◌≤◌, length, take, drop};
ghost use Rattle.records.specs.Judged.{narrow, IsWide};
ghost use Rattle.records.specs.Either.{report_of};
ghost use Rattle.records.specs.Layout.{layout_of, start_size, step_size};
ghost use Rattle.records.specs.Which.{old, its};
ghost use Rattle.explain.specs.Explain.{parts, NUMBER_PART as number_part, part_word, differing, step_difference, wrong_part, told};
ghost use Rattle.explain.specs.Either.{explanation_of};

use machine::step::step_event;
use records::layout;
use records::layout::Layout;
use records::report::Report;
use rules::verdict::Answer;
use state::place::BLOCK_SIZE;
use state::refusal::Refusal;
use words::runs::copy;
use words::{get_word, word_at};

// The parts of a Step: the answer number, the value, and from BLOCK_PART on the words of the block after.
const NUMBER_PART: u32 = 1;

const VALUE_PART: u32 = 2;

const BLOCK_PART: u32 = 3;

// The bytes of a word.
const WORD_SIZE: usize = 4;

// A part that differs, the word found there and the word due.
#[derive(Clone, Copy, Debug, PartialEq, Eq)]
struct Difference {
    part: u32,
    found: u32,
    due: u32,
}

// The checker's report, and what is wrong with a wrong Step.
#[repr(C)]
#[derive(Clone, Copy, Debug, PartialEq, Eq)]
pub struct Explanation {
    pub number: u32,
    pub place: u32,
    pub steps: u32,
    pub part: u32,
    pub found: u32,
    pub due: u32,
}

// Where a Step that shows this answer and this block after differs first from the answer and the block that are due, both blocks
// being of this layout.
#[tactic(auto, using(crate::proofs::Differing::number_differs, crate::proofs::Differing::value_differs))]
fn first_difference(
    layout: Layout,
    shown: Answer,
    after: &[u8],
    due: Answer,
    block: &[u8],
) -> Option<Difference>
    requires { (length after.now ≡ (its layout).size) × (length block.now ≡ (its layout).size) }
    ensures { told result ≡ differing (parts (its layout)) number_part
        (part_word shown after.now) (part_word due block.now) }
{
    if shown.number != due.number {
        return Some(Difference {
            part: NUMBER_PART,
            found: shown.number,
            due: due.number,
        });
    }
    if shown.value != due.value {
        return Some(Difference {
            part: VALUE_PART,
            found: shown.value,
            due: due.value,
        });
    }
    for p in 0..layout.block_size() / WORD_SIZE {
        let found = get_word(after, p);
        let word = get_word(block, p);
        if found != word {
            return Some(Difference {
                part: BLOCK_PART + p as u32,
                found,
                due: word,
            });
        }
    }
    None
}

// How a whole Step differs from what the rules give from the block before, the machine's, which is stepped.
fn step_difference(layout: Layout, r: &[u8], block: &mut [u8; BLOCK_SIZE]) -> Option<Difference>
    requires { (step_size (its layout) ≤ length r.now) × IsWide (old layout) block.old }
    ensures { told result ≡ step_difference (its layout) (narrow (old layout) block.old) r.now }
{
    let due = step_event(block, layout.event_of(r));
    let shown = Answer {
        number: word_at(r, layout::NUMBER),
        value: word_at(r, layout::VALUE),
    };
    let after = &r[layout::BLOCK_AFTER..layout.step_size() as usize];
    first_difference(layout, shown, after, due, &block[..layout.block_size()])
}

// The same of the Step at this place of a trace, from the block that stands before it.
fn difference_at(layout: Layout, trace: &[u8], step: u32) -> Option<Difference>
    requires { (start_size (its layout) ≤ step) × (step + step_size (its layout) ≤ length trace.now) }
    ensures { told result ≡ step_difference (its layout)
        (take (its layout).size (drop (step - (its layout).size) trace.now)) (drop step trace.now) }
{
    let at = step as usize;
    let before = at - layout.block_size();
    let mut block = [0u8; BLOCK_SIZE];
    copy(&trace[before..at], &mut block);
    step_difference(layout, &trace[at..], &mut block)
}

// What is wrong with a trace on which the checker reports this: nothing, unless a Step of it is.
fn wrong_part(trace: &[u8], report: Report) -> Option<Difference>
    requires { report ≡ report_of trace.now }
    ensures { told result ≡ wrong_part (layout_of trace.now) trace.now report }
{
    if report.number != Refusal::WrongStep.number() {
        return None;
    }
    difference_at(Layout::of(trace), trace, report.place)
}

// The explanation of any bytes, in the layout of their Start.
pub fn explain(trace: &[u8]) -> Explanation
    ensures { result ≡ explanation_of trace.now }
{
    let report = trace::check(trace);
    let (part, found, due) = match wrong_part(trace, report) {
        Some(difference) => (difference.part, difference.found, difference.due),
        None => (0, 0, 0),
    };
    Explanation {
        number: report.number,
        place: report.place,
        steps: report.steps,
        part,
        found,
        due,
    }
}
