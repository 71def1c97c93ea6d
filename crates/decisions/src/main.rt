// Prints the decision table (document 02, No. 4): sixteen lines of sixteen digits, in the order of the index.
//
// What it must print stands in the file stdout, which `second/decisions.py` makes from document 01.
#![tactic(auto)]

use interrupts::decision::{INDEXES, decision};
use std::fmt::{Display, Formatter, Write};
use std::{fmt, io};

// How many entries a line has.
const ENTRIES: u32 = 16;

// A line by its number. It is written at once: a write for each entry would take more than the entries do.
#[derive(Clone, Copy)]
struct Line(u8);

impl Display for Line {
    fn fmt<W: Write>(&self, f: &mut Formatter<W>) -> fmt::Result {
        let first = u32::from(self.0) * ENTRIES;
        for place in 0..ENTRIES {
            let entry = decision(first + place);
            write!(f, "{entry}")?;
        }
        Ok(())
    }
}

fn main(rt: HostRuntime) -> io::Result<()> {
    for number in 0..(INDEXES / ENTRIES) as u8 {
        let line = Line(number);
        println!(rt; "{line}")?;
    }
    Ok(())
}
