// What each event owes on a good block, said once: the thirteen stand in crates of their own, and each is what the rules give its code.
ghost use Rattle.std.specs.Prelude.{ℕ};
ghost use Rattle.rules.specs.Parts.{Ready, CameTo};
ghost use Rattle.rules.specs.Step.{action};

use crate::event::Operands;
use crate::verdict::Verdict;
use state::place::BLOCK_SIZE;
use state::refusal::Refusal;
use state::state::Status;

pub trait Rule {
    ghost code: { ℕ };

    // The event, on a good block whose CPSR and SCR were read: its verdict, or why it is refused.
    fn apply(
        block: &mut [u8; BLOCK_SIZE],
        operands: Operands,
        status: Status,
    ) -> Result<Verdict, Refusal>
        requires { Ready block.old status }
        ensures { CameTo block.old (action block.old (record { code = code; a = operands.a; b = operands.b })) result block.new };
}
