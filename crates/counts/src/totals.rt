// The counts of all traces so far, and what one more adds to them.
ghost use Rattle.std.specs.Prelude.{◌≡◌, true, ◌↔◌, ◌+◌};
ghost use Rattle.words.specs.Word.{word};
ghost use Rattle.counts.specs.Counts.{WORDS as all_words, spell_words};
ghost use Rattle.counts.specs.Parts.{Fits};

use crate::places::{COUNTS_SIZE, WORDS};
use words::{get_word, put_word};

// Whether every sum is a word. The loop has no early exit, so that the compiler takes several words at a time.
#[tactic(auto, using(crate::proofs::Adding::below_none, crate::proofs::Adding::below_next))]
pub(crate) fn fits(counts: &[u8; COUNTS_SIZE], gains: &[u8; COUNTS_SIZE]) -> bool
    ensures { (result ≡ true) ↔ Fits counts.now gains.now }
{
    let mut fits = true;
    for w in 0..WORDS {
        fits &= get_word(gains, w) <= u32::MAX - get_word(counts, w);
    }
    fits
}

pub(crate) fn add(counts: &mut [u8; COUNTS_SIZE], gains: &[u8; COUNTS_SIZE])
    requires { Fits counts.old gains.now }
    ensures { counts.new
        ≡ spell_words all_words 0 (λ w. word counts.old w + word gains.now w) }
{
    for p in 0..WORDS {
        let sum = get_word(counts, p) + get_word(gains, p);
        put_word(counts, p, sum);
    }
}
