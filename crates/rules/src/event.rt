// An event, and when it is well formed (document 01, "Events").
ghost use Rattle.std.specs.Prelude.{◌≡◌, ◌&&◌, ltb};
ghost use Rattle.state.specs.Choice.{◌is◌};

use state::place;

#[repr(C)]
#[derive(Clone, Copy, Debug, PartialEq, Eq)]
pub struct Event {
    pub code: u32,
    pub a: u32,
    pub b: u32,
}

// What an event brings besides its code.
#[derive(Clone, Copy, Debug, PartialEq, Eq)]
pub struct Operands {
    pub a: u32,
    pub b: u32,
}

// How many values A may have, counted from 0: one where it must be 0, the two bits of an abort, and of a Prefetch Abort
// debug too, the five lines of a check, the cells of a banked access, the places of a note.
pub const ZERO_ONLY: u32 = 1;

pub const ABORT_VALUES: u32 = 4;

pub const PREFETCH_VALUES: u32 = 5;

pub const LINE_VALUES: u32 = 32;

pub const CELL_VALUES: u32 = 64;

pub const PLACE_VALUES: u32 = place::PLACES as u32;

impl Operands {
    // Are they well formed where B must be 0: is A below its bound, and B 0?
    pub fn are_within(self, bound: u32) -> bool
        ensures { result ≡ (ltb self.a bound && self.b is 0) }
    {
        self.a < bound && self.b == 0
    }
}
