// The offsets of the vector table (document 01, "Routing").
pub const UNDEFINED: u32 = 0x04;

pub const MONITOR_TRAP: u32 = 0x04;

pub const CALL: u32 = 0x08;

pub const PREFETCH_ABORT: u32 = 0x0C;

pub const DATA_ABORT: u32 = 0x10;

pub const SERROR: u32 = 0x10;

pub const HYP_TRAP: u32 = 0x14;

pub const IRQ: u32 = 0x18;

pub const FIQ: u32 = 0x1C;
