// An entry on a lent block (document 01, "Entry"). Only the words that change are written.
ghost use Rattle.std.specs.Prelude.{◌≡◌, ◌+◌, ◌<◌, ◌≤◌, true};
ghost use Rattle.words.specs.Word.{word};
ghost use Rattle.state.specs.Field.{flag, SCTLR_EE, SCTLR_TE};
ghost use Rattle.state.specs.Mode.{HYP, is_target};
ghost use Rattle.state.specs.Place.{PLACES, SCR};
ghost use Rattle.state.specs.Parts.{ReadFrom};
ghost use Rattle.entry.specs.Enter.{
  ns_cleared,
  masks_after,
  cpsr_after,
  control_place,
  vector_base,
  written,
  entered,
};
ghost use Rattle.entry.specs.Parts.{sets_number, own_place};

use state::field::{SCTLR_V, is_set};
use state::mode::Mode;
use state::place;
use state::place::BLOCK_SIZE;
use state::state::Status;
use words::{get_word, put_word};

// NS is cleared first where the entry comes from Monitor and does not go to Hyp. The answer is SCR as it is then.
#[tactic(auto, using(crate::proofs::Masks::ns_clear, crate::proofs::Masks::scr_put), unfolding(crate::specs::Enter::ns_cleared))]
fn clear_ns(block: &mut [u8; BLOCK_SIZE], status: Status, to: Mode) -> u32
    requires { ReadFrom block.old status }
    ensures { (block.new ≡ ns_cleared block.old to.number) × (result ≡ word block.new SCR) }
{
    if to == Mode::HYP {
        return status.scr;
    }
    if status.mode() == Mode::MONITOR {
        let after = status.scr / 2 * 2;
        put_word(block, place::SCR, after);
        return after;
    }
    status.scr
}

// The masks A I F that an entry to Hyp sets, as a number of three bits: those whose bit of SCR, EA IRQ FIQ, is 0. The
// compiler makes a table of the match.
fn hyp_sets(scr: u32) -> u32
    ensures value { result ≡ sets_number HYP scr }
    ensures small { result < 8 }
{
    match scr / 2 % 8 {
        0 => 7,
        1 => 5,
        2 => 6,
        3 => 4,
        4 => 3,
        5 => 1,
        6 => 2,
        _ => 0,
    }
}

// Those that an entry sets.
fn sets(to: Mode, scr: u32) -> u32
    ensures value { result ≡ sets_number to.number scr }
    ensures small { result < 8 }
{
    match to {
        Mode::HYP => hyp_sets(scr),
        Mode::MONITOR | Mode::FIQ => 7,
        Mode::ABORT | Mode::IRQ => 6,
        Mode::UNDEFINED | Mode::SUPERVISOR => 2,
        _ => 0,
    }
}

// The mask bits after an entry: those that were set stay.
#[tactic(auto, using(crate::proofs::Masks::masks_are, crate::proofs::Masks::masks_small))]
fn masks_after(cpsr: u32, scr: u32, to: Mode) -> u32
    ensures value { result ≡ masks_after cpsr scr to.number }
    ensures small { result < 512 }
{
    (cpsr / 64 % 8 | sets(to, scr)) * 64
}

// T and E after an entry, bits 5 and 9. TE and EE are bits 5 and 0 of SCTLR from bit 25 up: times 513 puts a copy nine
// bits higher, and the mask takes TE where it stands and EE of the copy.
#[tactic(auto, using(crate::proofs::Masks::flags_are, crate::proofs::Masks::flags_small))]
fn t_and_e(sctlr: u32) -> u32
    ensures value { result ≡ flag 9 (SCTLR_EE sctlr) + flag 5 (SCTLR_TE sctlr) }
    ensures small { result < 1024 }
{
    sctlr / 0x200_0000 * 513 & 0x220
}

// CPSR after an entry.
#[tactic(auto, unfolding(crate::specs::Enter::cpsr_after))]
fn cpsr_after(cpsr: u32, scr: u32, sctlr: u32, to: Mode) -> u32
    ensures { result ≡ cpsr_after cpsr scr sctlr to.number }
{
    cpsr / 0x800_0000 % 32 * 0x800_0000
        + cpsr / 0x1_0000 % 16 * 0x1_0000
        + masks_after(cpsr, scr, to)
        + t_and_e(sctlr)
        + to.number % 32
}

// Of a word that is banked by Security state, the place of the one in use: the Non-secure one's comes next.
fn own_place(secure: usize, scr: u32) -> usize
    requires { secure < PLACES }
    ensures value { result ≡ own_place secure scr }
    ensures near { result ≤ secure + 1 }
{
    secure + (scr % 2) as usize
}

// The control word that an entry goes by; scr is the word of the block.
fn control_of(block: &[u8; BLOCK_SIZE], scr: u32, to: Mode) -> u32
    requires { scr ≡ word block.now SCR }
    ensures { result ≡ word block.now (control_place block.now to.number) }
{
    if to == Mode::HYP {
        return get_word(block, place::HSCTLR);
    }
    if to == Mode::MONITOR {
        return get_word(block, place::SCTLR_S);
    }
    get_word(block, own_place(place::SCTLR_S, scr))
}

// The vector base, with its low bits; scr is the word of the block, and sctlr the control word.
#[tactic(auto, unfolding(crate::specs::Enter::vector_base))]
fn base_of(block: &[u8; BLOCK_SIZE], scr: u32, to: Mode, sctlr: u32) -> u32
    requires { scr ≡ word block.now SCR }
    ensures { result ≡ vector_base block.now to.number sctlr }
{
    if to == Mode::HYP {
        return get_word(block, place::HVBAR);
    }
    if to == Mode::MONITOR {
        return get_word(block, place::MVBAR);
    }
    // read whether it is used or not: the compiler then chooses without a branch that V's value makes hard to foresee
    let own = get_word(block, own_place(place::VBAR_S, scr));
    if is_set::<SCTLR_V>(sctlr) {
        0xFFFF_0000
    } else {
        own
    }
}

// The words of an entry from this CPSR, in a block whose NS is as it is after the entry.
#[tactic(auto, using(crate::proofs::Targets::has_spsr, crate::proofs::Targets::has_lr), unfolding(crate::specs::Enter::written, state::specs::Mode::is_target))]
#[inline(always)]
fn write_entry(block: &mut [u8; BLOCK_SIZE], cpsr: u32, scr: u32, to: Mode, offset: u32, link: u32)
    requires read { scr ≡ word block.old SCR }
    requires target { is_target to.number ≡ true }
    ensures { block.new ≡ written block.old cpsr to.number offset link }
{
    let sctlr = control_of(block, scr, to);
    let after = cpsr_after(cpsr, scr, sctlr, to);
    let start = base_of(block, scr, to, sctlr) / 32 % 0x800_0000 * 32;
    put_word(block, to.spsr_place().unwrap(), cpsr);
    put_word(block, to.lr_place().unwrap(), link);
    put_word(block, place::CPSR, after);
    put_word(block, place::PC, start.wrapping_add(offset));
}

// An entry. It becomes part of each place that takes an exception, where the mode is named: there the compiler makes an entry of its own
// for it, with its places and its masks as constants.
#[tactic(auto, unfolding(crate::specs::Enter::entered))]
#[inline(always)]
pub fn enter(block: &mut [u8; BLOCK_SIZE], status: Status, to: Mode, offset: u32, link: u32)
    requires read { ReadFrom block.old status }
    requires target { is_target to.number ≡ true }
    ensures { block.new ≡ entered block.old to.number offset link }
{
    let scr_after = clear_ns(block, status, to);
    write_entry(block, status.cpsr, scr_after, to, offset, link)
}
