// The places of the state block (document 01, "The state block"; document 02, No. 11).
pub const PLACES: usize = 45;

pub const BLOCK_SIZE: usize = 180;

// Of a block without HDCR, as document 01 has it.
pub const OLD_BLOCK_SIZE: usize = 176;

// A mark where there is no place: no block, now or later, has so many words.
pub const NO_PLACE: usize = 255;

// The registers of User and System mode, and those of FIQ mode.
pub const R8_USR: usize = 0;

pub const R9_USR: usize = 1;

pub const R10_USR: usize = 2;

pub const R11_USR: usize = 3;

pub const R12_USR: usize = 4;

pub const SP_USR: usize = 5;

pub const LR_USR: usize = 6;

pub const R8_FIQ: usize = 7;

pub const R9_FIQ: usize = 8;

pub const R10_FIQ: usize = 9;

pub const R11_FIQ: usize = 10;

pub const R12_FIQ: usize = 11;

pub const SP_FIQ: usize = 12;

pub const LR_FIQ: usize = 13;

// LR and SP of IRQ, Supervisor, Abort and Undefined mode; those of Monitor and Hyp mode.
pub const LR_IRQ: usize = 14;

pub const SP_IRQ: usize = 15;

pub const LR_SVC: usize = 16;

pub const SP_SVC: usize = 17;

pub const LR_ABT: usize = 18;

pub const SP_ABT: usize = 19;

pub const LR_UND: usize = 20;

pub const SP_UND: usize = 21;

pub const LR_MON: usize = 22;

pub const SP_MON: usize = 23;

pub const ELR_HYP: usize = 24;

pub const SP_HYP: usize = 25;

// The saved state of each mode that has one.
pub const SPSR_FIQ: usize = 26;

pub const SPSR_IRQ: usize = 27;

pub const SPSR_SVC: usize = 28;

pub const SPSR_ABT: usize = 29;

pub const SPSR_UND: usize = 30;

pub const SPSR_MON: usize = 31;

pub const SPSR_HYP: usize = 32;

// The present state, the address, the control words and the vector bases.
pub const CPSR: usize = 33;

pub const PC: usize = 34;

pub const SCR: usize = 35;

pub const HCR: usize = 36;

pub const SCTLR_S: usize = 37;

pub const SCTLR_NS: usize = 38;

pub const HSCTLR: usize = 39;

pub const VBAR_S: usize = 40;

pub const VBAR_NS: usize = 41;

pub const HVBAR: usize = 42;

pub const MVBAR: usize = 43;

pub const HDCR: usize = 44;
