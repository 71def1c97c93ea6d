// One trace more, on top of the counts so far.
ghost use Rattle.std.specs.Prelude.{◌≡◌};
ghost use Rattle.counts.specs.Counts.{count_returns_of, count_leaves_of};

use crate::places::COUNTS_SIZE;
use crate::tally::count_steps;
use crate::totals::{add, fits};
use records::layout::Layout;
use state::refusal::{DONE, Refusal};

// Counts an accepted trace, of either layout, and answers DONE. Any other answer leaves every count: BAD_SIZE for counts not of
// 512 bytes, the trace's own number where it is refused, FULL where a count would pass 4,294,967,295.
pub fn count(trace: &[u8], counts: &mut [u8]) -> u32
    ensures returns { result ≡ count_returns_of trace.now counts.old }
    ensures leaves { counts.new ≡ count_leaves_of trace.now counts.old }
{
    let Some(counts) = counts.as_mut_array::<COUNTS_SIZE>() else {
        return Refusal::BadSize.number();
    };
    let report = trace::check(trace);
    if report.number != DONE {
        return report.number;
    }
    let mut gains = [0u8; COUNTS_SIZE];
    count_steps(Layout::of(trace), trace, report.steps, &mut gains);
    if !fits(counts, &gains) {
        return Refusal::Full.number();
    }
    add(counts, &gains);
    DONE
}
