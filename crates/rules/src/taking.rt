// An exception that is taken: the entry and its verdict.
ghost use Rattle.std.specs.Prelude.{◌≡◌, Ok};
ghost use Rattle.rules.specs.Parts.{CameTo};
ghost use Rattle.rules.specs.Step.{Take, va_cleared};
ghost use Rattle.state.specs.Parts.{ReadFrom};

use crate::verdict::Verdict;
use entry::enter::enter;
use entry::entry::Entry;
use interrupts::exception::Exception;
use state::place;
use state::place::BLOCK_SIZE;
use state::state::Status;
use words::{get_word, put_word};

// Taking virtual SError clears HCR.VA.
fn clear_va(block: &mut [u8; BLOCK_SIZE], which: Exception)
    ensures { block.new ≡ va_cleared block.old which }
{
    if which == Exception::VirtualSError {
        let hcr = get_word(block, place::HCR);
        put_word(block, place::HCR, hcr / 512 * 512 + hcr % 256);
    }
}

// The exception taken: the block is entered, and this is its verdict.
#[inline(always)]
#[tactic(auto, using(crate::proofs::Carrying::cpsr_stays, crate::proofs::Carrying::scr_stays, crate::proofs::Carrying::taken), unfolding(state::specs::Mode::is_target))]
pub fn take(block: &mut [u8; BLOCK_SIZE], status: Status, which: Exception, entry: Entry) -> Verdict
    requires { ReadFrom block.old status }
    ensures { CameTo block.old (Take which entry.to.number entry.offset entry.link) (Ok result) block.new }
{
    clear_va(block, which);
    enter(block, status, entry.to, entry.offset, entry.link);
    Verdict::Entry {
        which,
        mode: entry.to,
        offset: entry.offset,
    }
}
