// The fields of one bit in the words that steer the rules (document 01, "The state block"), each by its register's name and its
// own. Bits are counted from 0, the lowest.
ghost use Rattle.std.specs.Prelude.{◌≡◌, ◌<◌};
ghost use Rattle.state.specs.Field.{bit};

// CPSR.
pub const CPSR_T: u32 = 5;

pub const CPSR_F: u32 = 6;

pub const CPSR_I: u32 = 7;

pub const CPSR_A: u32 = 8;

// SCR.
pub const SCR_NS: u32 = 0;

pub const SCR_IRQ: u32 = 1;

pub const SCR_FIQ: u32 = 2;

pub const SCR_EA: u32 = 3;

pub const SCR_FW: u32 = 4;

pub const SCR_AW: u32 = 5;

pub const SCR_SCD: u32 = 7;

pub const SCR_HCE: u32 = 8;

// HCR.
pub const HCR_FMO: u32 = 3;

pub const HCR_IMO: u32 = 4;

pub const HCR_AMO: u32 = 5;

pub const HCR_VF: u32 = 6;

pub const HCR_VI: u32 = 7;

pub const HCR_VA: u32 = 8;

pub const HCR_TSC: u32 = 19;

pub const HCR_TGE: u32 = 27;

// HDCR.
pub const HDCR_TDE: u32 = 8;

// SCTLR.
pub const SCTLR_V: u32 = 13;

// Is this field of the word set?
pub fn is_set<const BIT: u32>(word: u32) -> bool
    requires { BIT < 32 }
    ensures { result ≡ bit BIT word }
{
    (word >> BIT) % 2 == 1
}
