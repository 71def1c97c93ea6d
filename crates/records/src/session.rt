// What a session keeps (document 02, No. 6).
use crate::layout;
use state::place::BLOCK_SIZE;

// Room for any record.
pub const RECORD_SIZE: usize = layout::STEP_SIZE as usize;

// The stages: the Start is due; a Step of the old layout is, or of the new, or behind the last one the End; nothing more, which any
// higher number says too.
pub const AT_START: u32 = 0;

pub const OLD_NEXT: u32 = 1;

pub const NEXT: u32 = 2;

pub const OVER: u32 = 3;

// The numbers of a session: its stage, n and Steps; the place of the record due, and how many bytes of it are held; the fault
// that is known, or 0; and whether it is closed.
#[repr(C)]
#[derive(Clone, Copy, Debug, PartialEq, Eq)]
pub struct Progress {
    pub stage: u32,
    pub count: u32,
    pub steps: u32,
    pub place: u32,
    pub held: u32,
    pub fault: u32,
    pub closed: u32,
}

// A session keeps its numbers, the last block, and one unfinished record.
#[repr(C)]
#[derive(Clone, Copy)]
pub struct Session {
    pub progress: Progress,
    pub block: [u8; BLOCK_SIZE],
    pub unfinished: [u8; RECORD_SIZE],
}
