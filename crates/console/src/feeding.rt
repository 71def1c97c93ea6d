// A trace judged as it arrives, for C: a session that the caller lends.
ghost use Rattle.std.specs.Prelude.{◌≡◌};
ghost use Rattle.console.specs.Session.{Opens, Feeds, Closes, close_returns, close_leaves, close_keeps};

use crate::check::{REPORT_SIZE, put_report};
use records::session::{Progress, Session};
use state::refusal::{DONE, Refusal};

// Begins a trace, whatever the session held.
#[unsafe(no_mangle)]
pub extern "C" fn pomurica_open(session: &mut Session) -> u32
    ensures { Opens result session.new }
{
    *session = session::open();
    DONE
}

// The next bytes. Returns 0 until a fault is known, and then its number; CLOSED after closing.
#[unsafe(no_mangle)]
pub extern "C" fn pomurica_feed(session: &mut Session, bytes: &[u8]) -> u32
    ensures { Feeds session.old bytes.now result session.new }
{
    let progress = session::feed(
        session.progress,
        &mut session.block,
        &mut session.unfinished,
        bytes,
    );
    session.progress = progress;
    session::feed_number(progress)
}

// What closing makes of a session's numbers, and of the report; returns the number.
#[tactic(auto, unfolding(crate::proofs::Telling::closing))]
fn close_into(progress: &mut Progress, report: &mut [u8]) -> u32
    ensures returns { result ≡ close_returns progress.old report.old }
    ensures keeps { progress.new ≡ close_keeps progress.old report.old }
    ensures leaves { report.new ≡ close_leaves progress.old report.old }
{
    let Some(report) = report.as_mut_array::<REPORT_SIZE>() else {
        return Refusal::BadSize.number();
    };
    let found = session::close(*progress);
    put_report(report, found);
    *progress = session::shut(*progress);
    found.number
}

// The end of the trace: returns the number, and writes number, place and Steps. A report that is not 12 bytes answers BAD_SIZE
// and changes nothing, the session included.
#[unsafe(no_mangle)]
pub extern "C" fn pomurica_close(session: &mut Session, report: &mut [u8]) -> u32
    ensures { Closes session.old report.old result session.new report.new }
{
    close_into(&mut session.progress, report)
}
