// The 64 cells of Tables F5-116 and F5-117 (document 01, "Banked-register rights"; Arm's source 004, section F5.2.3).
ghost use Rattle.std.specs.Prelude.{◌≡◌};
ghost use Rattle.banked.specs.Cell.{cell};
ghost use Rattle.banked.specs.Parts.{eight_from};

use state::place;

// By 32 R + SYSm: the place of the register, or the mark of a cell that is CONSTRAINED UNPREDICTABLE.
const CELLS: [u8; 64] = [
    // R 0, SYSm<4:3> 0b00
    place::R8_USR as u8,
    place::R9_USR as u8,
    place::R10_USR as u8,
    place::R11_USR as u8,
    place::R12_USR as u8,
    place::SP_USR as u8,
    place::LR_USR as u8,
    place::NO_PLACE as u8,
    // R 0, SYSm<4:3> 0b01
    place::R8_FIQ as u8,
    place::R9_FIQ as u8,
    place::R10_FIQ as u8,
    place::R11_FIQ as u8,
    place::R12_FIQ as u8,
    place::SP_FIQ as u8,
    place::LR_FIQ as u8,
    place::NO_PLACE as u8,
    // R 0, SYSm<4:3> 0b10
    place::LR_IRQ as u8,
    place::SP_IRQ as u8,
    place::LR_SVC as u8,
    place::SP_SVC as u8,
    place::LR_ABT as u8,
    place::SP_ABT as u8,
    place::LR_UND as u8,
    place::SP_UND as u8,
    // R 0, SYSm<4:3> 0b11
    place::NO_PLACE as u8,
    place::NO_PLACE as u8,
    place::NO_PLACE as u8,
    place::NO_PLACE as u8,
    place::LR_MON as u8,
    place::SP_MON as u8,
    place::ELR_HYP as u8,
    place::SP_HYP as u8,
    // R 1, SYSm<4:3> 0b00
    place::NO_PLACE as u8,
    place::NO_PLACE as u8,
    place::NO_PLACE as u8,
    place::NO_PLACE as u8,
    place::NO_PLACE as u8,
    place::NO_PLACE as u8,
    place::NO_PLACE as u8,
    place::NO_PLACE as u8,
    // R 1, SYSm<4:3> 0b01
    place::NO_PLACE as u8,
    place::NO_PLACE as u8,
    place::NO_PLACE as u8,
    place::NO_PLACE as u8,
    place::NO_PLACE as u8,
    place::NO_PLACE as u8,
    place::SPSR_FIQ as u8,
    place::NO_PLACE as u8,
    // R 1, SYSm<4:3> 0b10
    place::SPSR_IRQ as u8,
    place::NO_PLACE as u8,
    place::SPSR_SVC as u8,
    place::NO_PLACE as u8,
    place::SPSR_ABT as u8,
    place::NO_PLACE as u8,
    place::SPSR_UND as u8,
    place::NO_PLACE as u8,
    // R 1, SYSm<4:3> 0b11
    place::NO_PLACE as u8,
    place::NO_PLACE as u8,
    place::NO_PLACE as u8,
    place::NO_PLACE as u8,
    place::SPSR_MON as u8,
    place::NO_PLACE as u8,
    place::SPSR_HYP as u8,
    place::NO_PLACE as u8,
];

// The place of the register that A names, or NO_PLACE: one look into the table.
#[tactic(auto, using(crate::proofs::Cells::cells_right, crate::proofs::Cells::cell_out))]
pub fn cell_in_table(a: u32) -> usize
    ensures { result ≡ cell a }
{
    if a < 64 {
        usize::from(CELLS[a as usize])
    } else {
        place::NO_PLACE
    }
}

// Eight cells as a word, the first in its lowest byte, each by the number of its place; 0xFF is NO_PLACE.
#[tactic(auto, unfolding(crate::specs::Parts::eight_from))]
fn eight_from(a: u32) -> u64
    ensures { result ≡ eight_from a }
{
    match a / 8 {
        // R 0: R8 to R12, SP and LR of usr
        0 => 0xFF06_0504_0302_0100,
        // the same of fiq
        1 => 0xFF0D_0C0B_0A09_0807,
        // LR and SP of irq, svc, abt and und
        2 => 0x1514_1312_1110_0F0E,
        // LR and SP of mon, ELR and SP of hyp
        3 => 0x1918_1716_FFFF_FFFF,
        // R 1: none, and the SPSRs of fiq; of irq, svc, abt and und; of mon and hyp
        4 => 0xFFFF_FFFF_FFFF_FFFF,
        5 => 0xFF1A_FFFF_FFFF_FFFF,
        6 => 0xFF1E_FF1D_FF1C_FF1B,
        _ => 0xFF20_FF1F_FFFF_FFFF,
    }
}

// The same, quicker, for the step: the compiler copies the constant table to the stack wherever it is looked into, 14
// instructions, and makes a static table of a match. One of 64 arms would be too large for it to become part of both accesses.
#[tactic(auto, using(crate::proofs::Cells::byte_right, crate::proofs::Cells::cell_out))]
pub fn cell_of(a: u32) -> usize
    ensures { result ≡ cell a }
{
    if a < 64 {
        (eight_from(a) >> (a % 8 * 8) & 0xFF) as usize
    } else {
        place::NO_PLACE
    }
}
