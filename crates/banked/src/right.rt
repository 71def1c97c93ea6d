// Who may reach a banked register, and why not (document 01, "Banked-register rights"; document 02, No. 10).
ghost use Rattle.std.specs.Prelude.{◌≡◌, ◌||◌, ◌%◌, ◌≤◌, if◌then◌else◌};
ghost use Rattle.state.specs.Choice.{◌is◌};
ghost use Rattle.state.specs.Field.{mode_field, SCR_NS as ns_of};
ghost use Rattle.state.specs.Number.{NO_REGISTER};
ghost use Rattle.state.specs.Place.{NO_PLACE};
ghost use Rattle.state.specs.Refusal.{number};
ghost use Rattle.state.specs.State.{secure};
ghost use Rattle.banked.specs.Cell.{cell};
ghost use Rattle.banked.specs.Parts.{denied_to, denied_cells, own_to, Reached};
ghost use Rattle.banked.specs.Right.{denied, reason};

use crate::cell::cell_of;
use state::field::{SCR_NS, is_set};
use state::mode::Mode;
use state::refusal::Refusal;
use state::state::Status;

// Cells as a set, a word with bit A for the cell of A: those that name no register,
const UNALLOCATED: u64 = 0xAFAA_BFFF_0F00_8080;

// those of a mode that has some of its own,
const OF_FIQ: u64 = 0x7F << 8 | 1 << 46;

const OF_IRQ: u64 = 3 << 16 | 1 << 48;

const OF_SVC: u64 = 3 << 18 | 1 << 50;

const OF_ABT: u64 = 3 << 20 | 1 << 52;

const OF_UND: u64 = 3 << 22 | 1 << 54;

const OF_MON: u64 = 3 << 28 | 1 << 60;

// and the others of the paper's list.
const R8_TO_R12_USR: u64 = 0x1F;

const SP_USR: u64 = 1 << 5;

const LR_USR: u64 = 1 << 6;

const ELR_HYP: u64 = 1 << 30;

const SP_AND_SPSR_HYP: u64 = 1 << 31 | 1 << 62;

// What most modes cannot reach, besides their own.
const MOST: u64 = UNALLOCATED | R8_TO_R12_USR | ELR_HYP | SP_AND_SPSR_HYP;

const ALL: u64 = 0xFFFF_FFFF_FFFF_FFFF;

const NONE: u64 = 0;

// The modes by the lower four bits of their numbers; the fifth is 1 in each.
const USER: u32 = Mode::USER.number - 16;

const FIQ: u32 = Mode::FIQ.number - 16;

const IRQ: u32 = Mode::IRQ.number - 16;

const SUPERVISOR: u32 = Mode::SUPERVISOR.number - 16;

const MONITOR: u32 = Mode::MONITOR.number - 16;

const ABORT: u32 = Mode::ABORT.number - 16;

const HYP: u32 = Mode::HYP.number - 16;

const UNDEFINED: u32 = Mode::UNDEFINED.number - 16;

const SYSTEM: u32 = Mode::SYSTEM.number - 16;

// The cells that a mode cannot reach in Secure state, or that name no register. The compiler makes a table of it.
#[tactic(auto, unfolding(crate::specs::Parts::denied_to))]
fn denied_to(mode: u32) -> u64
    ensures { result ≡ denied_to mode }
{
    match mode {
        USER => ALL,
        FIQ => UNALLOCATED | OF_FIQ | ELR_HYP | SP_AND_SPSR_HYP,
        IRQ => MOST | OF_IRQ,
        SUPERVISOR => MOST | OF_SVC,
        MONITOR => UNALLOCATED | R8_TO_R12_USR | OF_MON,
        ABORT => MOST | OF_ABT,
        HYP => UNALLOCATED | R8_TO_R12_USR | LR_USR | SP_AND_SPSR_HYP,
        UNDEFINED => MOST | OF_UND,
        SYSTEM => MOST | SP_USR | LR_USR,
        _ => MOST,
    }
}

// The same in the state of SCR: from Non-secure state those of Monitor mode cannot be reached either.
#[tactic(auto, unfolding(crate::specs::Parts::denied_cells))]
fn denied_cells(status: Status) -> u64
    ensures { result ≡ denied_cells (status.cpsr % 16) (ns_of status.scr) }
{
    let cells = denied_to(status.cpsr % 16);
    if is_set::<SCR_NS>(status.scr) {
        cells | OF_MON
    } else {
        cells
    }
}

// Is there no register of A that may be reached? One look at the set of the mode, which is one of 16 to 31.
#[tactic(auto, using(crate::proofs::Rights::cells_say, crate::proofs::Cells::cell_out))]
pub fn is_denied(a: u32, status: Status) -> bool
    requires { 16 ≤ mode_field status.cpsr }
    ensures { result ≡ (cell a is NO_PLACE || denied (cell a) (mode_field status.cpsr) (secure status.cpsr status.scr)) }
{
    if a < 64 {
        denied_cells(status) >> a & 1 == 1
    } else {
        true
    }
}

// The cells of its own registers, which a mode reaches by another instruction; none is told of User, which has no right at all.
#[tactic(auto, unfolding(crate::specs::Parts::own_to))]
fn own_to(mode: u32) -> u64
    ensures { result ≡ own_to mode }
{
    match mode {
        FIQ => OF_FIQ,
        IRQ => R8_TO_R12_USR | OF_IRQ,
        SUPERVISOR => R8_TO_R12_USR | OF_SVC,
        MONITOR => R8_TO_R12_USR | OF_MON,
        ABORT => R8_TO_R12_USR | OF_ABT,
        HYP => R8_TO_R12_USR | LR_USR | SP_AND_SPSR_HYP,
        UNDEFINED => R8_TO_R12_USR | OF_UND,
        SYSTEM => R8_TO_R12_USR | SP_USR | LR_USR,
        _ => NONE,
    }
}

// Why: one look at the set of the mode's own.
pub fn denial_of(a: u32, cpsr: u32) -> Refusal
    requires { 16 ≤ mode_field cpsr }
    ensures { number result ≡ (if cell a is NO_PLACE then NO_REGISTER else reason (cell a) (mode_field cpsr)) }
{
    if a < 64 {
        if UNALLOCATED >> a & 1 == 1 {
            return Refusal::NoRegister;
        }
        if own_to(cpsr % 16) >> a & 1 == 1 {
            return Refusal::OwnRegister;
        }
        return Refusal::NoRight;
    }
    Refusal::NoRegister
}

// The place of the register that A names, if it may be reached.
#[inline(always)]
pub fn register_of(a: u32, status: Status) -> Result<usize, Refusal>
    requires { 16 ≤ mode_field status.cpsr }
    ensures { Reached a status.cpsr status.scr result }
{
    if is_denied(a, status) {
        return Err(denial_of(a, status.cpsr));
    }
    Ok(cell_of(a))
}
