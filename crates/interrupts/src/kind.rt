// The three kinds of interrupt, and what goes with each (document 01, "The interrupt check", "Routing" and "Events").
ghost use Rattle.std.specs.Prelude.{◌≡◌, ◌<◌, true};
ghost use Rattle.interrupts.specs.Decision.{physical};
ghost use Rattle.interrupts.specs.Parts.{virtual};
ghost use Rattle.interrupts.specs.Kind.{the_kind, line, R, M, W, mask, source, own_mode, own_offset, addend};
ghost use Rattle.state.specs.Choice.{◌among◌};
ghost use Rattle.state.specs.Mode.{targets};

use crate::exception::Exception;
use entry::offset;
use state::field::{
    CPSR_A, CPSR_F, CPSR_I, HCR_AMO, HCR_FMO, HCR_IMO, HCR_VA, HCR_VF, HCR_VI, SCR_AW, SCR_EA,
    SCR_FIQ, SCR_FW, SCR_IRQ, is_set,
};
use state::mode::Mode;

#[derive(Clone, Copy, Debug, PartialEq, Eq)]
pub enum Kind {
    SError,
    Fiq,
    Irq,
}

// The lines of a check, each by its bit: the physical ones, and two virtual ones.
const SERROR_LINE: u32 = 0;

const FIQ_LINE: u32 = 1;

const IRQ_LINE: u32 = 2;

const VIRTUAL_FIQ_LINE: u32 = 3;

const VIRTUAL_IRQ_LINE: u32 = 4;

impl Kind {
    // Its exceptions, the physical one and the virtual one.
    pub fn physical(self) -> Exception
        ensures { result ≡ physical (the_kind self) }
    {
        match self {
            Kind::SError => Exception::SError,
            Kind::Fiq => Exception::Fiq,
            Kind::Irq => Exception::Irq,
        }
    }

    pub fn virtual_one(self) -> Exception
        ensures { result ≡ virtual (the_kind self) }
    {
        match self {
            Kind::SError => Exception::VirtualSError,
            Kind::Fiq => Exception::VirtualFiq,
            Kind::Irq => Exception::VirtualIrq,
        }
    }

    // Is its physical line set?
    pub fn line(self, lines: u32) -> bool
        ensures { result ≡ line (the_kind self) lines }
    {
        match self {
            Kind::SError => is_set::<SERROR_LINE>(lines),
            Kind::Fiq => is_set::<FIQ_LINE>(lines),
            Kind::Irq => is_set::<IRQ_LINE>(lines),
        }
    }

    // Its bit of SCR that leads to Monitor, R, and the one that tells whether its mask bit is obeyed there, W.
    pub fn r(self, scr: u32) -> bool
        ensures { result ≡ R (the_kind self) scr }
    {
        match self {
            Kind::SError => is_set::<SCR_EA>(scr),
            Kind::Fiq => is_set::<SCR_FIQ>(scr),
            Kind::Irq => is_set::<SCR_IRQ>(scr),
        }
    }

    pub fn w(self, scr: u32) -> bool
        ensures { result ≡ W (the_kind self) scr }
    {
        match self {
            Kind::SError => is_set::<SCR_AW>(scr),
            Kind::Fiq => is_set::<SCR_FW>(scr),
            Kind::Irq => true,
        }
    }

    // Its override bit of HCR, M, as it is stored.
    pub fn m(self, hcr: u32) -> bool
        ensures { result ≡ M (the_kind self) hcr }
    {
        match self {
            Kind::SError => is_set::<HCR_AMO>(hcr),
            Kind::Fiq => is_set::<HCR_FMO>(hcr),
            Kind::Irq => is_set::<HCR_IMO>(hcr),
        }
    }

    // Its mask bit of CPSR.
    pub fn mask(self, cpsr: u32) -> bool
        ensures { result ≡ mask (the_kind self) cpsr }
    {
        match self {
            Kind::SError => is_set::<CPSR_A>(cpsr),
            Kind::Fiq => is_set::<CPSR_F>(cpsr),
            Kind::Irq => is_set::<CPSR_I>(cpsr),
        }
    }

    // The source of its virtual exception.
    pub fn source(self, hcr: u32, lines: u32) -> bool
        ensures { result ≡ source (the_kind self) hcr lines }
    {
        match self {
            Kind::SError => is_set::<HCR_VA>(hcr),
            Kind::Fiq => is_set::<HCR_VF>(hcr) | is_set::<VIRTUAL_FIQ_LINE>(lines),
            Kind::Irq => is_set::<HCR_VI>(hcr) | is_set::<VIRTUAL_IRQ_LINE>(lines),
        }
    }

    // The mode that it goes to where nothing sends it higher, its offset, and what its link has added.
    pub fn own_mode(self) -> Mode
        ensures mode { result ≡ record { number = own_mode (the_kind self) } }
        ensures target { (result.number among targets) ≡ true }
    {
        match self {
            Kind::SError => Mode::ABORT,
            Kind::Fiq => Mode::FIQ,
            Kind::Irq => Mode::IRQ,
        }
    }

    pub fn own_offset(self) -> u32
        ensures offset { result ≡ own_offset (the_kind self) }
        ensures near { result < 32 }
    {
        match self {
            Kind::SError => offset::SERROR,
            Kind::Fiq => offset::FIQ,
            Kind::Irq => offset::IRQ,
        }
    }

    pub fn addend(self) -> u32
        ensures { result ≡ addend (the_kind self) }
    {
        match self {
            Kind::SError => 8,
            Kind::Fiq | Kind::Irq => 4,
        }
    }
}
