// Where the counts stand: number i of group g, counted from 1, at word 32 (g - 1) + i.
//
// How many numbers a group has words for.
pub const GROUP_SIZE: usize = 32;

pub const WORDS: usize = 4 * GROUP_SIZE;

// In bytes.
pub const COUNTS_SIZE: usize = 4 * WORDS;
