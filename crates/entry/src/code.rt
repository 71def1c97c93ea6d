// The codes of the events (document 01, "Events"): 1 to 8 are synchronous.
pub const UNDEFINED_INSTRUCTION: u32 = 1;

pub const SVC: u32 = 2;

pub const SMC: u32 = 3;

pub const HVC: u32 = 4;

pub const PREFETCH_ABORT: u32 = 5;

pub const DATA_ABORT: u32 = 6;

pub const HYP_TRAP: u32 = 7;

pub const MONITOR_TRAP: u32 = 8;

pub const INTERRUPT_CHECK: u32 = 9;

pub const BANKED_READ: u32 = 10;

pub const BANKED_WRITE: u32 = 11;

pub const NOTE: u32 = 12;

// (document 02, No. 9)
pub const RETURN: u32 = 13;
