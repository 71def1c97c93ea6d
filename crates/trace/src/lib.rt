// The checker: one pass over the trace, from a copy of its start block, and no copy of the trace.
#![tactic(auto)]

ghost use Rattle.std.specs.Prelude.{◌≡◌, ◌↔◌, ◌+◌, ◌≤◌, ◌<◌, ◌^◌, length, drop};
ghost use Rattle.records.specs.Layout.{start_size, end_size, most_steps};
ghost use Rattle.records.specs.Either.{report_of as report_of_either, PublishedInOne};
ghost use Rattle.records.specs.Report.{end_report, report_from, report};
ghost use Rattle.records.specs.Which.{its};

use judgements::{judge_end, judge_start, judge_steps};
use records::layout;
use records::layout::Layout;
use records::report::{Report, report_of};
use state::place::BLOCK_SIZE;
use state::refusal::Refusal;
use words::runs::copy;
use words::word_at;

// End, due at this place after all Steps, and nothing behind it.
#[tactic(auto, unfolding(records::specs::Report::end_report))]
fn finish(r: &[u8], steps: u32, place: u32) -> Report
    requires { place + end_size < 2 ^ 32 }
    ensures { result ≡ end_report steps place r.now }
{
    if let Err(fault) = judge_end(r, steps) {
        return report_of(Err(fault), place, steps);
    }
    let end = place + layout::END_SIZE;
    if (layout::END_SIZE as usize) < r.len() {
        return report_of(Err(Refusal::Trailing), end, steps);
    }
    report_of(Ok(()), end, steps)
}

// The Steps and the End, from the block of a right Start that counts this many Steps.
fn judge_rest(layout: Layout, trace: &[u8], steps: u32, block: &mut [u8]) -> Report
    requires { (steps ≤ most_steps) × (start_size (its layout) ≤ length trace.now) × (length block.old ≡ (its layout).size) }
    ensures { result ≡ report_from (its layout) steps 0 block.old (drop (start_size (its layout)) trace.now) }
{
    let run = judge_steps(layout, &trace[layout.start_size() as usize..], steps, block);
    let place = layout.place_of(run.right);
    if run.outcome.is_err() {
        return report_of(run.outcome, place, run.right);
    }
    finish(&trace[place as usize..], steps, place)
}

// The report by the rules of a layout.
#[tactic(auto, using(records::proofs::Judging::start_whole), unfolding(records::specs::Report::report))]
fn check_in(layout: Layout, trace: &[u8]) -> Report
    ensures { result ≡ report (its layout) trace.now }
{
    if let Err(fault) = judge_start(layout, trace) {
        return report_of(Err(fault), 0, 0);
    }
    let steps = word_at(trace, layout::COUNT);
    let mut block = [0u8; BLOCK_SIZE];
    let start = &mut block[..layout.block_size()];
    copy(
        &trace[layout::START_BLOCK..layout.start_size() as usize],
        start,
    );
    judge_rest(layout, trace, steps, start)
}

// The report on any bytes, in the layout of their Start; number 0 exactly on a published trace of either layout.
#[inline(always)]
pub fn check(trace: &[u8]) -> Report
    ensures report { result ≡ report_of_either trace.now }
    ensures exact { (result.number ≡ 0) ↔ PublishedInOne trace.now }
{
    check_in(Layout::of(trace), trace)
}
