// Runs of bytes.
ghost use Rattle.std.specs.Prelude.{◌≡◌, true, ◌↔◌, ◌≤◌, length, take, drop, ◌++◌};

// Whether two runs of one length are the same bytes. The loop has no early exit, so that the compiler takes many bytes
// at a time.
fn same_bytes(a: &[u8], b: &[u8]) -> bool
    requires { length a.now ≡ length b.now }
    ensures { (result ≡ true) ↔ (a.now ≡ b.now) }
{
    let mut alike = true;
    for (x, y) in a.iter().zip(b) {
        alike &= x == y;
    }
    alike
}

// Whether the two runs are the same bytes. The compiler takes 32 bytes at a time: the whole 32s are compared first, the
// rest apart, so that neither loop has both to do. That is fewer instructions for two blocks.
pub fn same(a: &[u8], b: &[u8]) -> bool
    ensures { (result ≡ true) ↔ (a.now ≡ b.now) }
{
    if a.len() != b.len() {
        return false;
    }
    let even = a.len() / 32 * 32;
    let (a_front, a_rest) = a.split_at(even);
    let (b_front, b_rest) = b.split_at(even);
    same_bytes(a_front, b_front) && same_bytes(a_rest, b_rest)
}

// Puts the bytes of the one run over the first of the other.
pub fn copy(from: &[u8], to: &mut [u8])
    requires { length from.now ≤ length to.old }
    ensures { (length to.new ≡ length to.old)
        × (to.new ≡ take (length from.now) from.now ++ drop (length from.now) to.old) }
{
    to[..from.len()].copy_from_slice(from);
}
