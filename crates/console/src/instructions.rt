// Instruction words, for C.
ghost use Rattle.std.specs.Prelude.{◌≡◌};
ghost use Rattle.console.specs.Instruction.{parts_bytes, read_returns, read_leaves, write_returns, write_leaves};

use instruction::Parts;
use state::refusal::{DONE, Refusal};
use words::put_word;

const PARTS_SIZE: usize = 16;

const WORD_SIZE: usize = 4;

// Where the four words of the parts stand.
const CODE: usize = 0;

const A: usize = 1;

const CONDITION: usize = 2;

const REGISTER: usize = 3;

// What is told where there are none.
const NO_PARTS: Parts = Parts {
    code: 0,
    a: 0,
    condition: 0,
    register: 0,
};

// The parts into their buffer.
fn put_parts(buffer: &mut [u8; PARTS_SIZE], p: Parts)
    ensures { buffer.new ≡ parts_bytes p }
{
    put_word(buffer, CODE, p.code);
    put_word(buffer, A, p.a);
    put_word(buffer, CONDITION, p.condition);
    put_word(buffer, REGISTER, p.register);
}

// A word into its parts. One that is no banked access is NOT_BANKED, with the parts 0. Parts that are not 16 bytes answer BAD_SIZE and
// keep every byte.
#[tactic(auto, using(crate::proofs::Telling::of_reading), unfolding(crate::proofs::Telling::reading))]
#[unsafe(no_mangle)]
pub extern "C" fn pomurica_read_instruction(word: u32, parts: &mut [u8]) -> u32
    ensures returns { result ≡ read_returns word parts.old }
    ensures leaves { parts.new ≡ read_leaves word parts.old }
{
    let Some(parts) = parts.as_mut_array::<PARTS_SIZE>() else {
        return Refusal::BadSize.number();
    };
    match instruction::read(word) {
        Some(found) => {
            put_parts(parts, found);
            DONE
        }
        None => {
            put_parts(parts, NO_PARTS);
            Refusal::NotBanked.number()
        }
    }
}

// Parts into the word. Where they are none it is NOT_BANKED, with the word 0. A word that is not 4 bytes answers BAD_SIZE and keeps
// every byte.
#[tactic(auto, using(crate::proofs::Telling::of_writing), unfolding(crate::proofs::Telling::writing))]
#[unsafe(no_mangle)]
pub extern "C" fn pomurica_write_instruction(
    code: u32,
    a: u32,
    condition: u32,
    reg: u32,
    word: &mut [u8],
) -> u32
    ensures returns { result
        ≡ write_returns (record { code = code; a = a; condition = condition; register = reg }) word.old }
    ensures leaves { word.new
        ≡ write_leaves (record { code = code; a = a; condition = condition; register = reg }) word.old }
{
    if word.len() != WORD_SIZE {
        return Refusal::BadSize.number();
    }
    let parts = Parts {
        code,
        a,
        condition,
        register: reg,
    };
    match instruction::write(parts) {
        Some(written) => {
            put_word(word, 0, written);
            DONE
        }
        None => {
            put_word(word, 0, 0);
            Refusal::NotBanked.number()
        }
    }
}
