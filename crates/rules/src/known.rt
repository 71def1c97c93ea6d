// What a layout of a trace knows of the events, and a direct step with it (document 02, Nos. 11 and 13).
ghost use Rattle.std.specs.Prelude.{true, false};
ghost use Rattle.rules.specs.Known.{SeenCode};

use entry::code::{INTERRUPT_CHECK, NOTE, PREFETCH_ABORT};
use state::place;

// A code that is none, the A of a debug abort, the place of HDCR as an operand, and the first of the virtual lines.
const NO_CODE: u32 = 0;

const DEBUG: u32 = 4;

const HDCR_PLACE: u32 = place::HDCR as u32;

const VIRTUAL_LINES: u32 = 8;

// The code of an event as the old layout sees it: one that it does not know is none.
#[tactic(auto, unfolding(crate::specs::Known::seen))]
pub fn old_code(code: u32, a: u32) -> u32
    ensures { SeenCode true code a result }
{
    if code == PREFETCH_ABORT {
        if a == DEBUG {
            return NO_CODE;
        }
        return code;
    }
    if code == NOTE {
        if a == HDCR_PLACE {
            return NO_CODE;
        }
    }
    code
}

// As a direct step sees it, and the new layout: a check with a virtual line is none. The two lines are the bits from VIRTUAL_LINES on.
#[tactic(auto, unfolding(crate::specs::Known::seen))]
pub fn direct_code(code: u32, a: u32) -> u32
    ensures { SeenCode false code a result }
{
    if code == INTERRUPT_CHECK {
        if a / VIRTUAL_LINES % 4 != 0 {
            return NO_CODE;
        }
    }
    code
}
