// The verdict of a done step, and the answer that tells it (document 01, "Answer numbers").
use interrupts::exception::Exception;
use state::mode::Mode;

#[repr(C)]
#[derive(Clone, Copy, Debug, PartialEq, Eq)]
pub struct Answer {
    pub number: u32,
    pub value: u32,
}

#[derive(Clone, Copy, Debug, PartialEq, Eq)]
pub enum Verdict {
    // An entry: which exception it was, the mode it went to, and the offset.
    Entry {
        which: Exception,
        mode: Mode,
        offset: u32,
    },
    // Nothing taken, of these lines.
    NothingTaken(u32),
    // A register's word, read.
    Register(u32),
    // A word written.
    Written(u32),
    // A return, to this address.
    Returned(u32),
}
