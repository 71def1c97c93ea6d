// Which exception an entry was (document 01, "Answer numbers" and "The interrupt check").
ghost use Rattle.std.specs.Prelude.{◌≡◌, ◌<◌};
ghost use Rattle.interrupts.specs.Exception.{which};

// In the order of the numbers that a value reports them by.
#[derive(Clone, Copy, Debug, PartialEq, Eq)]
pub enum Exception {
    Synchronous,
    SError,
    Fiq,
    Irq,
    VirtualSError,
    VirtualFiq,
    VirtualIrq,
}

// The number that a value reports it by.
pub fn which_of(x: Exception) -> u32
    ensures value { result ≡ which x }
    ensures small { result < 7 }
{
    x as u32
}
