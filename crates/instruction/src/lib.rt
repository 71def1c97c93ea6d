// Instruction words (document 02, No. 14): MRS and MSR of a banked register, read into the parts of an event, and written of them.
#![tactic(auto)]

ghost use Rattle.std.specs.Prelude.{◌≡◌, ◌<◌, Some, None, if◌then◌else◌};
ghost use Rattle.instruction.specs.Places.{has_bits, a_in, shared_of};
ghost use Rattle.instruction.specs.Instruction.{in_range, read_if, write_if};

use entry::code;

// A condition, and a register, are below it.
const RANGE: u32 = 15;

// And A is below this.
const CELLS: u32 = 64;

// What an instruction says: the event's code and A, and apart from them the condition and the general register.
#[repr(C)]
#[derive(Clone, Copy, Debug, PartialEq, Eq)]
pub struct Parts {
    pub code: u32,
    pub a: u32,
    pub condition: u32,
    pub register: u32,
}

// ---- reading

// Does the word have the fixed bits that both share, these two at 21 and 20, and in the field that only one of them has fixed what is
// due? The bits that should be so are asked for like the others.
fn has_bits(word: u32, op: u32, field: u32, due: u32) -> bool
    ensures { result ≡ has_bits word op field due }
{
    if word / 0x80_0000 % 32 != 2 {
        return false;
    }
    if word / 0x10_0000 % 4 != op {
        return false;
    }
    if word / 0x400 % 4 != 0 {
        return false;
    }
    if word / 0x200 % 2 != 1 {
        return false;
    }
    if word / 0x10 % 16 != 0 {
        return false;
    }
    field == due
}

// Are condition and register in their range?
fn are_in_range(p: Parts) -> bool
    ensures { result ≡ in_range p }
{
    p.condition < RANGE && p.register < RANGE
}

// The parts, if condition and register are in their range.
fn within(p: Parts) -> Option<Parts>
    ensures { result ≡ (if in_range p then Some p else None) }
{
    if are_in_range(p) { Some(p) } else { None }
}

// A: R, M and M1, in this order.
fn a_of(word: u32) -> u32
    ensures { result ≡ a_in word }
{
    word / 0x40_0000 % 2 * 32 + word / 0x100 % 2 * 16 + word / 0x1_0000 % 16
}

// The parts of a word that is MRS, with bits 3 to 0 that should be 0, or MSR, with bits 15 to 12 that should be 1; any other has none.
pub fn read(word: u32) -> Option<Parts>
    ensures { result ≡ read_if word }
{
    if has_bits(word, 0, word % 16, 0) {
        return within(Parts {
            code: code::BANKED_READ,
            a: a_of(word),
            condition: word / 0x1000_0000,
            register: word / 0x1000 % 16,
        });
    }
    if has_bits(word, 2, word / 0x1000 % 16, 15) {
        return within(Parts {
            code: code::BANKED_WRITE,
            a: a_of(word),
            condition: word / 0x1000_0000,
            register: word % 16,
        });
    }
    None
}

// ---- writing

// What the words of both have: the condition, R, M1, M, and the bits that are set in each.
fn shared(a: u32, condition: u32) -> u32
    requires { (a < 64) × (condition < 15) }
    ensures { result ≡ shared_of a condition }
{
    condition * 0x1000_0000
        + a / 32 * 0x40_0000
        + a % 16 * 0x1_0000
        + a / 16 % 2 * 0x100
        + 0x100_0200
}

// The word of these parts; there is none where a part is out of its range, or the code is of neither.
pub fn write(p: Parts) -> Option<u32>
    ensures { result ≡ write_if p }
{
    if CELLS <= p.a || !are_in_range(p) {
        return None;
    }
    let both = shared(p.a, p.condition);
    match p.code {
        code::BANKED_READ => Some(both + p.register * 0x1000),
        code::BANKED_WRITE => Some(both + 0x20_F000 + p.register),
        _ => None,
    }
}
