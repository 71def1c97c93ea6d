// The decision table for a test bench (document 02, No. 4): what the rules give one physical exception alone.
ghost use Rattle.std.specs.Prelude.{◌≡◌};
ghost use Rattle.interrupts.specs.Decision.{entry};

// How many entries it has.
pub const INDEXES: u32 = 256;

// Where there is no such class of state.
const NO_CLASS: u32 = 4;

// 0 not taken, 1 Monitor, 2 Hyp, 3 the default mode; a line by pending, mask bit, W and M, the lowest first.
const DECISIONS: [[u8; 16]; 16] = [
    [0, 3, 0, 0, 0, 3, 0, 0, 0, 3, 0, 0, 0, 3, 0, 0], // Secure, R 0, TGE 0
    [0, 3, 0, 0, 0, 3, 0, 0, 0, 3, 0, 0, 0, 3, 0, 0], // Secure, R 0, TGE 1
    [0, 1, 0, 0, 0, 1, 0, 0, 0, 1, 0, 0, 0, 1, 0, 0], // Secure, R 1, TGE 0
    [0, 1, 0, 0, 0, 1, 0, 0, 0, 1, 0, 0, 0, 1, 0, 0], // Secure, R 1, TGE 1
    [0, 3, 0, 0, 0, 3, 0, 0, 0, 2, 0, 2, 0, 2, 0, 2], // Non-secure User or EL1, R 0, TGE 0
    [0, 2, 0, 2, 0, 2, 0, 2, 0, 2, 0, 2, 0, 2, 0, 2], // Non-secure User or EL1, R 0, TGE 1
    [0, 1, 0, 1, 0, 1, 0, 0, 0, 1, 0, 1, 0, 1, 0, 1], // Non-secure User or EL1, R 1, TGE 0
    [0, 1, 0, 1, 0, 1, 0, 1, 0, 1, 0, 1, 0, 1, 0, 1], // Non-secure User or EL1, R 1, TGE 1
    [0, 2, 0, 0, 0, 2, 0, 0, 0, 2, 0, 0, 0, 2, 0, 0], // Hyp, R 0, TGE 0
    [0, 2, 0, 0, 0, 2, 0, 0, 0, 2, 0, 0, 0, 2, 0, 0], // Hyp, R 0, TGE 1
    [0, 1, 0, 1, 0, 1, 0, 0, 0, 1, 0, 1, 0, 1, 0, 1], // Hyp, R 1, TGE 0
    [0, 1, 0, 1, 0, 1, 0, 1, 0, 1, 0, 1, 0, 1, 0, 1], // Hyp, R 1, TGE 1
    [4, 4, 4, 4, 4, 4, 4, 4, 4, 4, 4, 4, 4, 4, 4, 4], // unused, R 0, TGE 0
    [4, 4, 4, 4, 4, 4, 4, 4, 4, 4, 4, 4, 4, 4, 4, 4], // unused, R 0, TGE 1
    [4, 4, 4, 4, 4, 4, 4, 4, 4, 4, 4, 4, 4, 4, 4, 4], // unused, R 1, TGE 0
    [4, 4, 4, 4, 4, 4, 4, 4, 4, 4, 4, 4, 4, 4, 4, 4], // unused, R 1, TGE 1
];

// The entry of an index; past the table there is no class.
#[tactic(auto, using(crate::proofs::Decisions::decisions_right, crate::proofs::Decisions::decision_out))]
pub fn decision(index: u32) -> u32
    ensures { result ≡ entry index }
{
    if index < INDEXES {
        let line = (index / 16) as usize;
        let i = (index % 16) as usize;
        u32::from(DECISIONS[line][i])
    } else {
        NO_CLASS
    }
}
