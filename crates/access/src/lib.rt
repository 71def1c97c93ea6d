// The banked accesses (document 01, "Banked-register rights") and notes, on a good block.
#![tactic(auto)]

ghost use Rattle.std.specs.Prelude.{◌<◌};
ghost use Rattle.rules.specs.Event as codes;
ghost use Rattle.rules.specs.Parts.{CameTo, judged_put};
ghost use Rattle.state.specs.Place.{PLACES};
ghost use Rattle.state.specs.Refusal.{number_of};

use banked::right::register_of;
use rules::event::{CELL_VALUES, Operands, PLACE_VALUES};
use rules::rule::Rule;
use rules::verdict::Verdict;
use state::place;
use state::place::BLOCK_SIZE;
use state::refusal::Refusal;
use state::state::Status;
use words::{get_word, put_word};

pub struct BankedRead;

impl Rule for BankedRead {
    ghost code = { codes.BANKED_READ };

    #[tactic(auto, using(crate::proofs::Access::mode_number, crate::proofs::Access::read_inside))]
    fn apply(
        block: &mut [u8; BLOCK_SIZE],
        operands: Operands,
        status: Status,
    ) -> Result<Verdict, Refusal> {
        if !operands.are_within(CELL_VALUES) {
            return Err(Refusal::BadEvent);
        }
        let p = register_of(operands.a, status)?;
        Ok(Verdict::Register(get_word(block, p)))
    }
}

pub struct BankedWrite;

impl Rule for BankedWrite {
    ghost code = { codes.BANKED_WRITE };

    #[tactic(auto, using(crate::proofs::Access::mode_number, crate::proofs::Access::write_inside))]
    fn apply(
        block: &mut [u8; BLOCK_SIZE],
        operands: Operands,
        status: Status,
    ) -> Result<Verdict, Refusal> {
        if CELL_VALUES <= operands.a {
            return Err(Refusal::BadEvent);
        }
        let p = register_of(operands.a, status)?;
        put_word(block, p, operands.b);
        Ok(Verdict::Written(operands.b))
    }
}

// The word w put at the place p, if the block that it makes is judged good.
fn put_if(
    block: &mut [u8; BLOCK_SIZE],
    p: usize,
    w: u32,
    judged: Result<(), Refusal>,
) -> Result<Verdict, Refusal>
    requires { p < PLACES }
    ensures { CameTo block.old (judged_put p w (number_of judged)) result block.new }
{
    judged?;
    put_word(block, p, w);
    Ok(Verdict::Written(w))
}

// A note is judged by the block that it would make, which is as good as it was where the note is not on CPSR, SCR or HCR.
pub struct Note;

impl Rule for Note {
    ghost code = { codes.NOTE };

    fn apply(
        block: &mut [u8; BLOCK_SIZE],
        operands: Operands,
        status: Status,
    ) -> Result<Verdict, Refusal> {
        if PLACE_VALUES <= operands.a {
            return Err(Refusal::BadEvent);
        }
        let hcr = get_word(block, place::HCR);
        let p = operands.a as usize;
        let b = operands.b;
        let judged = match p {
            place::CPSR => Status {
                cpsr: b,
                scr: status.scr,
            }
            .judge(hcr),
            place::SCR => Status {
                cpsr: status.cpsr,
                scr: b,
            }
            .judge(hcr),
            place::HCR => status.judge(b),
            _ => Ok(()),
        };
        put_if(block, p, b, judged)
    }
}
