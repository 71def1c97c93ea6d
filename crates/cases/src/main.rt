// The worked cases a to k of document 01 ("Numbers to hold against it"), run through `step_event`. Each line is a case
// in the paper's notation; what it must say stands in the file stdout, written by hand from the paper.
#![tactic(auto)]

ghost use Rattle.std.specs.Prelude.{◌<◌};
ghost use Rattle.state.specs.Place.{PLACES as places};

use rules::event::Event;
use rules::verdict::Answer;
use state::place;
use state::place::{BLOCK_SIZE, PLACES};
use state::refusal::DONE;
use std::fmt::{Display, Formatter, Write};
use std::{fmt, io};
use words::{get_word, put_word};

// ---- writing

// A word: 0, or 0x and its digits.
#[derive(Clone, Copy)]
struct Word(u32);

impl Display for Word {
    fn fmt<W: Write>(&self, f: &mut Formatter<W>) -> fmt::Result {
        if self.0 == 0 {
            return write!(f, "0");
        }
        write!(f, "{:#X}", self.0)
    }
}

// An answer number: DONE by its name, a refusal by its number.
#[derive(Clone, Copy)]
struct Number(u32);

impl Display for Number {
    fn fmt<W: Write>(&self, f: &mut Formatter<W>) -> fmt::Result {
        if self.0 == DONE {
            return write!(f, "DONE");
        }
        write!(f, "{}", self.0)
    }
}

// A register of the block.
#[derive(Clone, Copy)]
struct Register {
    name: &'static str,
    place: usize,
    ghost inside: { place < places },
}

const SCR: Register = Register {
    name: "SCR",
    place: place::SCR,
};

const CPSR: Register = Register {
    name: "CPSR",
    place: place::CPSR,
};

const PC: Register = Register {
    name: "PC",
    place: place::PC,
};

const HCR: Register = Register {
    name: "HCR",
    place: place::HCR,
};

const ELR_HYP: Register = Register {
    name: "ELR_hyp",
    place: place::ELR_HYP,
};

const LR_SVC: Register = Register {
    name: "LR_svc",
    place: place::LR_SVC,
};

const LR_ABT: Register = Register {
    name: "LR_abt",
    place: place::LR_ABT,
};

const LR_IRQ: Register = Register {
    name: "LR_irq",
    place: place::LR_IRQ,
};

const LR_MON: Register = Register {
    name: "LR_mon",
    place: place::LR_MON,
};

// ---- blocks and steps

// A block that is 0 but for SCR, CPSR and PC.
fn block_with(scr: u32, cpsr: u32, pc: u32) -> [u8; BLOCK_SIZE] {
    let mut block = [0u8; BLOCK_SIZE];
    put_word(&mut block, place::SCR, scr);
    put_word(&mut block, place::CPSR, cpsr);
    put_word(&mut block, place::PC, pc);
    block
}

// A different word at every place, none of them 0.
fn number_places(block: &mut [u8; BLOCK_SIZE]) {
    for p in 0..PLACES {
        put_word(block, p, 0x100 + p as u32);
    }
}

// A block so numbered, but for SCR, CPSR and PC.
fn full_block_with(scr: u32, cpsr: u32, pc: u32) -> [u8; BLOCK_SIZE] {
    let mut block = [0u8; BLOCK_SIZE];
    number_places(&mut block);
    put_word(&mut block, place::SCR, scr);
    put_word(&mut block, place::CPSR, cpsr);
    put_word(&mut block, place::PC, pc);
    block
}

fn step(block: &mut [u8; BLOCK_SIZE], code: u32, a: u32) -> Answer {
    machine::step::step_event(block, Event { code, a, b: 0 })
}

// ---- the cases

// The codes of their events.
const SVC: u32 = 2;

const SMC: u32 = 3;

const INTERRUPT_CHECK: u32 = 9;

const BANKED_READ: u32 = 10;

// An event's value, and each of these registers after it.
fn say(
    rt: &impl Print,
    label: &str,
    block: &mut [u8; BLOCK_SIZE],
    code: u32,
    a: u32,
    registers: &[Register],
) -> io::Result<()> {
    let value = Word(step(block, code, a).value);
    print!(rt; "{label}{value}")?;
    for r in registers {
        let name = r.name;
        let word = Word(get_word(block, r.place));
        print!(rt; ", {name} {word}")?;
    }
    Ok(())
}

fn case_a(rt: &impl Print) -> io::Result<()> {
    let mut block = block_with(1, 0x13, 0x8000);
    put_word(&mut block, place::VBAR_NS, 0x1000_0000);
    say(
        rt,
        "a ",
        &mut block,
        INTERRUPT_CHECK,
        4,
        &[CPSR, LR_IRQ, PC],
    )?;
    println!(rt;)
}

fn case_b(rt: &impl Print) -> io::Result<()> {
    let mut block = block_with(3, 0x13, 0x8000);
    put_word(&mut block, place::VBAR_NS, 0x1000_0000);
    say(rt, "b ", &mut block, INTERRUPT_CHECK, 4, &[CPSR])?;
    println!(rt;)
}

// Nothing taken: no byte of the block may differ from the start.
fn case_c(rt: &impl Print) -> io::Result<()> {
    let start = block_with(3, 0x93, 0x8000);
    let mut block = start;
    say(rt, "c ", &mut block, INTERRUPT_CHECK, 4, &[])?;
    if start == block {
        print!(rt; ", nothing taken")?;
    }
    println!(rt;)
}

fn case_d(rt: &impl Print) -> io::Result<()> {
    let mut block = block_with(1, 0x93, 0x8000);
    put_word(&mut block, place::HCR, 0x10);
    say(rt, "d ", &mut block, INTERRUPT_CHECK, 4, &[CPSR, ELR_HYP])?;
    println!(rt;)
}

fn case_e(rt: &impl Print) -> io::Result<()> {
    let mut block = block_with(5, 0x53, 0x8000);
    say(rt, "e ", &mut block, INTERRUPT_CHECK, 2, &[])?;
    let mut other = block_with(0x15, 0x53, 0x8000);
    say(rt, "; with SCR 0x15: ", &mut other, INTERRUPT_CHECK, 2, &[])?;
    println!(rt;)
}

fn case_f(rt: &impl Print) -> io::Result<()> {
    let mut block = block_with(1, 0x13, 0x8000);
    put_word(&mut block, place::HCR, 0x120);
    say(rt, "f ", &mut block, INTERRUPT_CHECK, 0, &[HCR, LR_ABT])?;
    println!(rt;)
}

fn case_g(rt: &impl Print) -> io::Result<()> {
    let mut block = block_with(1, 0x30, 0xFFFF_FFFE);
    say(rt, "g ", &mut block, SVC, 0, &[LR_SVC, CPSR])?;
    println!(rt;)
}

fn case_h(rt: &impl Print) -> io::Result<()> {
    let mut block = block_with(1, 0x16, 0x8000);
    say(rt, "h ", &mut block, SMC, 0, &[SCR, LR_MON])?;
    println!(rt;)
}

// A banked read of the cell A: its number, and what it read.
fn read(rt: &impl Print, label: &str, start: [u8; BLOCK_SIZE], a: u32) -> io::Result<u32> {
    let mut block = start;
    let answer = step(&mut block, BANKED_READ, a);
    let number = Number(answer.number);
    print!(rt; "{label}{number}")?;
    Ok(answer.value)
}

fn case_i(rt: &impl Print) -> io::Result<()> {
    read(rt, "i ", block_with(1, 0x13, 0x8000), 31)?;
    read(rt, "; from 0x16: ", block_with(1, 0x16, 0x8000), 31)?;
    println!(rt;)
}

fn case_j(rt: &impl Print) -> io::Result<()> {
    read(rt, "j ", block_with(1, 0x1A, 0x8000), 30)?;
    read(rt, "; A 62: ", block_with(1, 0x1A, 0x8000), 62)?;
    read(rt, "; A 7: ", block_with(1, 0x1A, 0x8000), 7)?;
    println!(rt;)
}

// The word that was read is LR_mon's.
fn case_k(rt: &impl Print) -> io::Result<()> {
    let start = block_with(0, 0x13, 0x8000);
    let w = read(rt, "k ", start, 28)?;
    if w == get_word(&start, place::LR_MON) {
        print!(rt; ", LR_mon")?;
    }
    println!(rt;)
}

// i, j and k again with a different non-zero word at every place, so that a read of the wrong place shows.
fn cases_again(rt: &impl Print) -> io::Result<()> {
    let svc = full_block_with(1, 0x13, 0x8000);
    let mon = full_block_with(1, 0x16, 0x8000);
    let hyp = full_block_with(1, 0x1A, 0x8000);
    read(rt, "again: i ", svc, 31)?;
    let sp_hyp = Word(read(rt, "; from 0x16: ", mon, 31)?);
    print!(rt; " {sp_hyp}")?;
    let elr_hyp = Word(read(rt, "\nagain: j ", hyp, 30)?);
    print!(rt; " {elr_hyp}")?;
    read(rt, "; A 62: ", hyp, 62)?;
    read(rt, "; A 7: ", hyp, 7)?;
    let lr_mon = Word(read(rt, "\nagain: k ", full_block_with(2, 0x13, 0x8000), 28)?);
    println!(rt; ", LR_mon {lr_mon}")
}

fn main(rt: HostRuntime) -> io::Result<()> {
    case_a(&rt)?;
    case_b(&rt)?;
    case_c(&rt)?;
    case_d(&rt)?;
    case_e(&rt)?;
    case_f(&rt)?;
    case_g(&rt)?;
    case_h(&rt)?;
    case_i(&rt)?;
    case_j(&rt)?;
    case_k(&rt)?;
    cases_again(&rt)
}
