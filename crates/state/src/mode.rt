// The nine modes (document 01, "The state block"), and where each keeps its return address and its saved state.
ghost use Rattle.std.specs.Prelude.{◌≡◌, ◌<◌, ◌&&◌, ltb, IfSome};
ghost use Rattle.state.specs.Field.{mode_field};
ghost use Rattle.state.specs.Mode.{known, el1, guest, spsr_place, lr_place};
ghost use Rattle.state.specs.Parts.{in_set, place_or_none};
ghost use Rattle.state.specs.Place.{PLACES};

use crate::place;

// A mode, by the number that CPSR has for it.
#[derive(Clone, Copy, Debug, PartialEq, Eq)]
pub struct Mode {
    pub number: u32,
}

// Sets of modes, bit n for the mode of number n: one shift tells whether a mode is in one.
const EL1_MODES: u32 = 1 << Mode::FIQ.number
    | 1 << Mode::IRQ.number
    | 1 << Mode::SUPERVISOR.number
    | 1 << Mode::ABORT.number
    | 1 << Mode::UNDEFINED.number
    | 1 << Mode::SYSTEM.number;

const GUEST_MODES: u32 = 1 << Mode::USER.number | EL1_MODES;

const HYP_MODE: u32 = 1 << Mode::HYP.number;

const MODES: u32 = 1 << Mode::MONITOR.number | HYP_MODE | GUEST_MODES;

// The modes that no good block is in: whatever it holds, with NS 1 and TGE 1, and with NS 0.
pub const UNKNOWN: u32 = 0xFFFF_FFFF - MODES;

pub const UNKNOWN_OR_EL1: u32 = UNKNOWN + EL1_MODES;

pub const UNKNOWN_OR_HYP: u32 = UNKNOWN + HYP_MODE;

impl Mode {
    // The nine.
    pub const USER: Mode = Mode { number: 0x10 };

    pub const FIQ: Mode = Mode { number: 0x11 };

    pub const IRQ: Mode = Mode { number: 0x12 };

    pub const SUPERVISOR: Mode = Mode { number: 0x13 };

    pub const MONITOR: Mode = Mode { number: 0x16 };

    pub const ABORT: Mode = Mode { number: 0x17 };

    pub const HYP: Mode = Mode { number: 0x1A };

    pub const UNDEFINED: Mode = Mode { number: 0x1B };

    pub const SYSTEM: Mode = Mode { number: 0x1F };

    // The mode that a CPSR word names.
    pub fn of(cpsr: u32) -> Mode
        ensures { result ≡ record { number = mode_field cpsr } }
    {
        Mode { number: cpsr % 32 }
    }

    // Is it in the set, a word with bit n for the mode of number n?
    fn is_in(self, set: u32) -> bool
        ensures { result ≡ (ltb self.number 32 && in_set set self.number) }
    {
        if self.number < 32 {
            set >> self.number & 1 == 1
        } else {
            false
        }
    }

    // Is it one of the nine?
    #[tactic(auto, using(crate::proofs::Sets::known_says))]
    pub fn is_known(self) -> bool
        ensures { result ≡ known self.number }
    {
        self.is_in(MODES)
    }

    // FIQ, IRQ, Supervisor, Abort, Undefined or System?
    #[tactic(auto, using(crate::proofs::Sets::el1_says))]
    pub fn is_el1(self) -> bool
        ensures { result ≡ el1 self.number }
    {
        self.is_in(EL1_MODES)
    }

    // One of those, or User?
    #[tactic(auto, using(crate::proofs::Sets::guest_says))]
    pub fn is_guest(self) -> bool
        ensures { result ≡ guest self.number }
    {
        self.is_in(GUEST_MODES)
    }

    // The place of its SPSR; User and System have none.
    #[tactic(auto, unfolding(crate::specs::Mode::spsr_place))]
    pub fn spsr_place(self) -> Option<usize>
        ensures place { place_or_none result ≡ spsr_place self.number }
        ensures inside { IfSome result (λ p. p < PLACES) }
    {
        match self {
            Mode::FIQ => Some(place::SPSR_FIQ),
            Mode::IRQ => Some(place::SPSR_IRQ),
            Mode::SUPERVISOR => Some(place::SPSR_SVC),
            Mode::ABORT => Some(place::SPSR_ABT),
            Mode::UNDEFINED => Some(place::SPSR_UND),
            Mode::MONITOR => Some(place::SPSR_MON),
            Mode::HYP => Some(place::SPSR_HYP),
            _ => None,
        }
    }

    // The place of its return address: its LR, for Hyp ELR_hyp. Only what is none of the nine has none.
    #[tactic(auto, unfolding(crate::specs::Mode::lr_place))]
    pub fn lr_place(self) -> Option<usize>
        ensures place { place_or_none result ≡ lr_place self.number }
        ensures inside { IfSome result (λ p. p < PLACES) }
    {
        match self {
            Mode::USER | Mode::SYSTEM => Some(place::LR_USR),
            Mode::FIQ => Some(place::LR_FIQ),
            Mode::IRQ => Some(place::LR_IRQ),
            Mode::SUPERVISOR => Some(place::LR_SVC),
            Mode::ABORT => Some(place::LR_ABT),
            Mode::UNDEFINED => Some(place::LR_UND),
            Mode::MONITOR => Some(place::LR_MON),
            Mode::HYP => Some(place::ELR_HYP),
            _ => None,
        }
    }
}
