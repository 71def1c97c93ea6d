// Which rules the archive goes by, and in which release of them: what VERSION at the project's root says, as a number.
#![tactic(auto)]

ghost use Rattle.std.specs.Prelude.{◌≡◌};
ghost use Rattle.edition.specs.Edition.{number};

const DOCUMENT: u32 = 1;

const LAST_REQUEST: u32 = 14;

const RELEASE: u32 = 0;

pub fn edition() -> u32
    ensures { result ≡ number }
{
    DOCUMENT * 65536 + LAST_REQUEST * 256 + RELEASE
}
