// The edition of the rules, for C.
ghost use Rattle.std.specs.Prelude.{◌≡◌};
ghost use Rattle.edition.specs.Edition.{number};

// A console holds it against the header's POMURICA_EDITION at its start, and sees there that header and archive belong together.
#[unsafe(no_mangle)]
pub extern "C" fn pomurica_edition() -> u32
    ensures { result ≡ number }
{
    edition::edition()
}
