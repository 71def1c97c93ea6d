// The exception return on a good block (document 02, No. 9).
#![tactic(auto)]

ghost use Rattle.std.specs.Prelude.{Ok};
ghost use Rattle.rules.specs.Event.{RETURN};
ghost use Rattle.returns.specs.Parts.{Leaves};
ghost use Rattle.returns.specs.Return.{word_after, address_after};
ghost use Rattle.rules.specs.Parts.{CameTo};
ghost use Rattle.rules.specs.Step.{Return};
ghost use Rattle.state.specs.Parts.{ReadFrom};
ghost use Rattle.state.specs.Place.{HCR as hcr_place};
ghost use Rattle.words.specs.Word.{word};

use returns::{address_after, is_bad_saved, is_wrong_a, word_after};
use rules::event::Operands;
use rules::rule::Rule;
use rules::verdict::Verdict;
use state::place;
use state::place::BLOCK_SIZE;
use state::refusal::Refusal;
use state::state::Status;
use words::{get_word, put_word};

// The return itself: CPSR by the saved word, PC by the link less A.
fn leave(block: &mut [u8; BLOCK_SIZE], status: Status, saved: u32, link: u32, a: u32) -> Verdict
    requires { ReadFrom block.old status × Leaves status.cpsr status.scr }
    ensures { CameTo block.old
        (Return (word_after status.cpsr status.scr (word block.old hcr_place) saved) (address_after saved link a)) (Ok result)
        block.new }
{
    let after = word_after(status, get_word(block, place::HCR), saved);
    let pc = address_after(saved, link, a);
    put_word(block, place::CPSR, after);
    put_word(block, place::PC, pc);
    Verdict::Returned(pc)
}

// The saved word is tested before the operands, and both before the mode: User and System have none.
pub struct ExceptionReturn;

impl Rule for ExceptionReturn {
    ghost code = { RETURN };

    fn apply(
        block: &mut [u8; BLOCK_SIZE],
        operands: Operands,
        status: Status,
    ) -> Result<Verdict, Refusal> {
        let mode = status.mode();
        let wrong = is_wrong_a(status.cpsr, operands.a) | (operands.b != 0);
        let Some(p) = mode.spsr_place() else {
            if wrong {
                return Err(Refusal::BadEvent);
            }
            return Err(Refusal::NotHere);
        };
        let saved = get_word(block, p);
        if is_bad_saved(saved) {
            return Err(Refusal::BadState);
        }
        if wrong {
            return Err(Refusal::BadEvent);
        }
        let link = get_word(block, mode.lr_place().unwrap());
        Ok(leave(block, status, saved, link, operands.a))
    }
}
