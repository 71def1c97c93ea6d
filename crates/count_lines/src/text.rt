// A text that is made from the back, in a buffer that is large enough for the lines of any counts.
ghost use Rattle.std.specs.Prelude.{◌≡◌, List, [], ◌∷◌, ◌++◌, ℕ, ◌+◌, ◌<◌, ◌≤◌, length, drop};
ghost use Rattle.count_lines.specs.Lines.{decimal, field, line};
ghost use Rattle.count_lines.specs.Parts.{TEXT_SIZE as text_size};

use counts::places::WORDS;
use std::marker::Model;

const LINE_END: u8 = b'\n';

const SPACE: u8 = b' ';

const ZERO: u8 = b'0';

// A line has at most 16 bytes: a digit, two and ten, two spaces and the line end.
const TEXT_SIZE: usize = 16 * WORDS;

// The text is what stands from `first` on.
#[derive(Drop)]
pub(crate) struct Text {
    bytes: [u8; TEXT_SIZE],
    first: usize,
}

impl Model for Text {
    ghost Value = { List ℕ };

    ghost view = { λ t. drop t.first t.bytes };

    ghost invariant = { λ t. t.first ≤ text_size };
}

impl Text {
    pub(crate) fn new() -> Self
        ensures { result ≡ [] }
    {
        Text {
            bytes: [0; TEXT_SIZE],
            first: TEXT_SIZE,
        }
    }

    pub(crate) fn bytes(&self) -> &[u8]
        ensures { result.now ≡ self.now }
    {
        &self.bytes[self.first..]
    }

    // One byte before it. Where it begins is stored behind the byte: to the compiler any byte may be one of `first`, and stored before it,
    // that would be read back from memory at each byte.
    fn push(&mut self, byte: u8)
        requires { length self.old < text_size }
        ensures { self.new ≡ byte ∷ self.old }
    {
        let first = self.first - 1;
        self.bytes[first] = byte;
        self.first = first;
    }

    // A number in decimal before it.
    fn push_decimal(&mut self, number: u32)
        requires { length (decimal number) + length self.old ≤ text_size }
        ensures { self.new ≡ decimal number ++ self.old }
    {
        let mut rest = number;
        while 10 <= rest {
            self.push(ZERO + (rest % 10) as u8);
            rest /= 10;
        }
        self.push(ZERO + rest as u8);
    }

    // A number in decimal and the byte behind it, before it.
    fn push_field(&mut self, number: u32, mark: u8)
        requires { length (field number mark) + length self.old ≤ text_size }
        ensures { self.new ≡ field number mark ++ self.old }
    {
        self.push(mark);
        self.push_decimal(number);
    }

    // A line before it.
    pub(crate) fn push_line(&mut self, group: u32, number: u32, count: u32)
        requires { length (line group number count) + length self.old ≤ text_size }
        ensures { self.new ≡ line group number count ++ self.old }
    {
        self.push_field(count, LINE_END);
        self.push_field(number, SPACE);
        self.push_field(group, SPACE);
    }
}
