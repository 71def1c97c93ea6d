// Where an entry goes: to a mode, at an offset from the vector base, with a word for its return address.
ghost use Rattle.std.specs.Prelude.{◌≡◌, ◌<◌, true};
ghost use Rattle.state.specs.Choice.{◌among◌};
ghost use Rattle.state.specs.Mode.{targets};

use state::mode::Mode;

#[derive(Clone, Copy, Debug, PartialEq, Eq)]
pub struct Entry {
    pub to: Mode,
    pub offset: u32,
    pub link: u32,
    // the mode has a saved state of its own
    ghost target: { (to.number among targets) ≡ true },
    ghost near: { offset < 32 },
}
