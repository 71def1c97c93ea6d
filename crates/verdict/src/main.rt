// Judges a trace on standard input as it comes, of any length, and prints the checker's number, place and Steps.
//
// It reads to the end of the input also where a fault is known before, so that a sender is not cut off. A read that fails, as
// of a directory or a closed input, prints CANNOT READ: it is not the end of the input.
#![tactic(auto)]

use records::report::Report;
use records::session::Session;
use std::io;
use std::io::Read;

// How many bytes a read asks for.
const RUN_SIZE: usize = 65536;

// Reads once, and feeds what came; how many bytes they are, 0 at the end of the input.
fn read_some(input: &mut impl Read, session: &mut Session, run: &mut [u8]) -> io::Result<usize> {
    let got = input.read(run)?;
    session.progress = session::feed(
        session.progress,
        &mut session.block,
        &mut session.unfinished,
        &run[..got],
    );
    Ok(got)
}

// A proved loop ends, and nothing says that an input does: so the turns are counted, up to a number that no run uses up.
fn judge_input(rt: &(impl Input + Print), run: &mut [u8]) -> io::Result<()> {
    let mut input = rt.reader();
    let mut session = session::open();
    for _ in 0..u64::MAX {
        match read_some(&mut input, &mut session, run) {
            Ok(0) => break,
            Ok(_) => {}
            Err(_) => return println!(rt; "CANNOT READ"),
        }
    }
    let Report {
        number,
        place,
        steps,
    } = session::close(session.progress);
    println!(rt; "{number} {place} {steps}")
}

fn main(rt: HostRuntime) -> io::Result<()> {
    let mut run = [0u8; RUN_SIZE];
    judge_input(&rt, &mut run)
}
