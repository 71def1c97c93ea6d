// What the checker answers: a number, the place, and the Steps found right before it.
ghost use Rattle.std.specs.Prelude.{◌≡◌};
ghost use Rattle.state.specs.Refusal.{number_of};

use state::refusal;
use state::refusal::Refusal;

#[repr(C)]
#[derive(Clone, Copy, Debug, PartialEq, Eq)]
pub struct Report {
    pub number: u32,
    pub place: u32,
    pub steps: u32,
}

// The report of what was found at a place, behind so many right Steps.
pub fn report_of(outcome: Result<(), Refusal>, place: u32, steps: u32) -> Report
    ensures { result ≡ record { number = number_of outcome; place = place; steps = steps } }
{
    Report {
        number: refusal::number_of(outcome),
        place,
        steps,
    }
}
