// The layouts of a trace (document 01, "The trace"; document 02, No. 11): what their records' sizes and kinds are, and where the
// parts of a record begin.
ghost use Rattle.std.specs.Prelude.{◌≡◌, ◌*◌, ◌≤◌, length};
ghost use Rattle.records.specs.Layout.{start_size, step_size, place_of, most_steps, block_after_at, is_old};
ghost use Rattle.records.specs.Report.{event_of};
ghost use Rattle.records.specs.Which.{old, its};
ghost use Rattle.rules.specs.Known.{SeenCode, seen};

use rules::event::Event;
use rules::known::{direct_code, old_code};
use state::place;
use words::word_at;

// A head: the length of the whole record and its kind, two bytes each.
pub const HEAD_SIZE: usize = 4;

// The new layout.
pub const START_SIZE: u32 = 188;

pub const START_KIND: u32 = 4;

pub const STEP_SIZE: u32 = 204;

pub const STEP_KIND: u32 = 5;

// The old one, whose blocks have no HDCR.
pub const OLD_START_SIZE: u32 = 184;

pub const OLD_START_KIND: u32 = 1;

pub const OLD_STEP_SIZE: u32 = 200;

pub const OLD_STEP_KIND: u32 = 2;

// End, of either.
pub const END_SIZE: u32 = 8;

pub const END_KIND: u32 = 3;

// How many Steps there may be.
pub const MOST_STEPS: u32 = 65535;

// Of Start and End: the step count; of Start: the block.
pub const COUNT: usize = 4;

pub const START_BLOCK: usize = 8;

// Of a Step: code, A, B, answer, value and block after.
pub const CODE: usize = 4;

pub const A: usize = 8;

pub const B: usize = 12;

pub const NUMBER: usize = 16;

pub const VALUE: usize = 20;

pub const BLOCK_AFTER: usize = 24;

// Which layout a trace has.
#[derive(Clone, Copy, Debug, PartialEq, Eq)]
pub enum Layout {
    Old,
    New,
}

impl Layout {
    // That of a string, by the kind of its Start; what has no head of the new one is old.
    pub fn of(trace: &[u8]) -> Layout
        ensures { old result ≡ is_old trace.now }
    {
        if trace.len() < HEAD_SIZE {
            return Layout::Old;
        }
        if word_at(trace, 0) / 65536 == START_KIND {
            return Layout::New;
        }
        Layout::Old
    }

    // The sizes of its blocks and records, and their kinds.
    pub fn block_size(self) -> usize
        ensures { result ≡ (its self).size }
    {
        match self {
            Layout::Old => place::OLD_BLOCK_SIZE,
            Layout::New => place::BLOCK_SIZE,
        }
    }

    pub fn start_size(self) -> u32
        ensures { result ≡ start_size (its self) }
    {
        match self {
            Layout::Old => OLD_START_SIZE,
            Layout::New => START_SIZE,
        }
    }

    pub fn start_kind(self) -> u32
        ensures { result ≡ (its self).start_kind }
    {
        match self {
            Layout::Old => OLD_START_KIND,
            Layout::New => START_KIND,
        }
    }

    pub fn step_size(self) -> u32
        ensures { result ≡ step_size (its self) }
    {
        match self {
            Layout::Old => OLD_STEP_SIZE,
            Layout::New => STEP_SIZE,
        }
    }

    pub fn step_kind(self) -> u32
        ensures { result ≡ (its self).step_kind }
    {
        match self {
            Layout::Old => OLD_STEP_KIND,
            Layout::New => STEP_KIND,
        }
    }

    // The bytes of so many Steps.
    pub fn steps_size(self, steps: u32) -> u32
        requires { steps ≤ most_steps }
        ensures { result ≡ step_size (its self) * steps }
    {
        self.step_size() * steps
    }

    // Where the record after a Start and so many Steps begins.
    pub fn place_of(self, steps: u32) -> u32
        requires { steps ≤ most_steps }
        ensures { result ≡ place_of (its self) steps }
    {
        self.start_size() + self.steps_size(steps)
    }

    // The code of an event as the layout sees it: one that it does not know is none.
    pub fn seen_code(self, code: u32, a: u32) -> u32
        ensures { SeenCode (old self) code a result }
    {
        match self {
            Layout::Old => old_code(code, a),
            Layout::New => direct_code(code, a),
        }
    }

    // The event that a Step names, as the layout sees it.
    pub fn event_of(self, r: &[u8]) -> Event
        requires { block_after_at ≤ length r.now }
        ensures { result ≡ seen (old self) (event_of r.now) }
    {
        let a = word_at(r, A);
        Event {
            code: self.seen_code(word_at(r, CODE), a),
            a,
            b: word_at(r, B),
        }
    }
}
