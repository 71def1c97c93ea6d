// The checker, for C.
ghost use Rattle.std.specs.Prelude.{◌≡◌, ◌↔◌, length};
ghost use Rattle.records.specs.Either.{PublishedInOne};
ghost use Rattle.console.specs.Check.{report_size, report_bytes, check_returns, check_leaves};

use records::report::Report;
use state::refusal::Refusal;
use words::put_word;

pub(crate) const REPORT_SIZE: usize = 12;

// Where the three words of a report stand.
const NUMBER: usize = 0;

const PLACE: usize = 1;

const STEPS: usize = 2;

// A report into its buffer.
pub(crate) fn put_report(buffer: &mut [u8; REPORT_SIZE], found: Report)
    ensures { buffer.new ≡ report_bytes found }
{
    put_word(buffer, NUMBER, found.number);
    put_word(buffer, PLACE, found.place);
    put_word(buffer, STEPS, found.steps);
}

// Returns the number, and writes number, place and Steps. A report that is not 12 bytes answers BAD_SIZE and keeps every byte.
#[tactic(auto, unfolding(crate::specs::Check::check_returns, crate::specs::Check::check_leaves))]
#[unsafe(no_mangle)]
pub extern "C" fn pomurica_check(trace: &[u8], report: &mut [u8]) -> u32
    ensures returns { result ≡ check_returns trace.now report.old }
    ensures leaves { report.new ≡ check_leaves trace.now report.old }
    ensures exact { length report.old ≡ report_size → (result ≡ 0) ↔ PublishedInOne trace.now }
{
    let Some(report) = report.as_mut_array::<REPORT_SIZE>() else {
        return Refusal::BadSize.number();
    };
    let found = trace::check(trace);
    put_report(report, found);
    found.number
}
