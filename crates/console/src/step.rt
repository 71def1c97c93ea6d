// One step for C: a lent block of 180 bytes, an event, and a lent answer buffer of 8.
ghost use Rattle.std.specs.Prelude.{◌≡◌};
ghost use Rattle.rules.specs.Known.{direct};
ghost use Rattle.rules.specs.Step.{number_returned, block_left, answer_left};

// The number is returned, and number and value are written to the answer buffer. On BAD_SIZE neither buffer changes.
#[unsafe(no_mangle)]
pub extern "C" fn pomurica_step(
    block: &mut [u8],
    code: u32,
    a: u32,
    b: u32,
    answer: &mut [u8],
) -> u32
    ensures number { result ≡ number_returned block.old (direct (record { code = code; a = a; b = b })) answer.old }
    ensures leaves { block.new
        ≡ block_left block.old (direct (record { code = code; a = a; b = b })) answer.old }
    ensures answers { answer.new
        ≡ answer_left block.old (direct (record { code = code; a = a; b = b })) answer.old }
{
    machine::step::step(block, code, a, b, answer)
}
