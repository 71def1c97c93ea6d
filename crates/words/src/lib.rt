// Little-endian words in lent bytes. The compiler turns each of these into a single load or store.
#![tactic(auto)]

pub mod runs;

ghost use Rattle.std.specs.Prelude.{◌≡◌, ◌+◌, ◌*◌, ◌≤◌, length};
ghost use Rattle.words.specs.Word.{spelt, word, put};

// The four bytes from i on, as a number.
#[tactic(auto, unfolding(crate::specs::Word::spelt))]
pub fn word_at(r: &[u8], i: usize) -> u32
    requires { i + 4 ≤ length r.now }
    ensures { result ≡ spelt r.now i }
{
    u32::from_le_bytes([r[i], r[i + 1], r[i + 2], r[i + 3]])
}

// The word at the place p.
pub fn get_word(b: &[u8], p: usize) -> u32
    requires { 4 * p + 4 ≤ length b.now }
    ensures { result ≡ word b.now p }
{
    word_at(b, 4 * p)
}

// The word w put at the place p.
#[tactic(auto, using(crate::proofs::Laws::put_is))]
pub fn put_word(b: &mut [u8], p: usize, w: u32)
    requires { 4 * p + 4 ≤ length b.old }
    ensures { b.new ≡ put b.old p w }
{
    b[4 * p..4 * p + 4].copy_from_slice(&w.to_le_bytes());
}
