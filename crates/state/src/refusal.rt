// The answer numbers (document 01, "Answer numbers" and "The trace"; document 02, Nos. 1, 6, 7, 8, 10 and 14).
ghost use Rattle.std.specs.Prelude.{◌≡◌, ◌<◌};
ghost use Rattle.state.specs.Refusal.{number, number_of};

// What is answered where nothing is refused: a done step, and a trace that is accepted.
pub const DONE: u32 = 0;

// Why something is refused, each by its number.
#[derive(Clone, Copy, Debug, PartialEq, Eq)]
pub enum Refusal {
    // A step.
    BadSize = 1,
    BadMode = 2,
    BadState = 3,
    BadEvent = 4,
    NotHere = 5,
    NoRegister = 6,
    NoRight = 7,
    // A trace.
    Short = 8,
    BadRecord = 9,
    BadCount = 10,
    WrongStep = 11,
    Trailing = 12,
    // Counts, a feeding, and who writes into a lent buffer.
    Full = 13,
    Closed = 14,
    NoRoom = 15,
    // A step again.
    Disabled = 16,
    OwnRegister = 17,
    // An instruction word.
    NotBanked = 18,
}

impl Refusal {
    pub fn number(self) -> u32
        ensures value { result ≡ number self }
        ensures small { result < 19 }
    {
        self as u32
    }
}

// The number that is answered.
pub fn number_of(outcome: Result<(), Refusal>) -> u32
    ensures { result ≡ number_of outcome }
{
    match outcome {
        Ok(()) => DONE,
        Err(refusal) => refusal.number(),
    }
}
