// The counts as lines of text. They are made from the back, number by number and digit by digit, in a buffer that is large
// enough for any counts, and then copied to the front of the lent room.
#![tactic(auto)]

mod text;

ghost use Rattle.std.specs.Prelude.{◌≡◌};
ghost use Rattle.count_lines.specs.Lines.{lines, lines_return, lines_leave, written};

use crate::text::Text;
use counts::places::{COUNTS_SIZE, GROUP_SIZE, WORDS};
use state::refusal::Refusal;
use words::get_word;
use words::runs::copy;

// All lines.
fn lines_of(counts: &[u8; COUNTS_SIZE]) -> Text
    ensures { result ≡ lines counts.now }
{
    let mut text = Text::new();
    for w in (0..WORDS).rev() {
        let count = get_word(counts, w);
        if count != 0 {
            let group = (w / GROUP_SIZE + 1) as u32;
            let number = (w % GROUP_SIZE) as u32;
            text.push_line(group, number, count);
        }
    }
    text
}

// The lines of the counts, into a lent room; how many bytes they are. BAD_SIZE for counts not of 512 bytes and NO_ROOM for a room that
// is too small leave every byte.
pub fn put_lines(counts: &[u8], room: &mut [u8]) -> Result<usize, Refusal>
    ensures returns { written result ≡ lines_return counts.now room.old }
    ensures leaves { room.new ≡ lines_leave counts.now room.old }
{
    let Some(counts) = counts.as_array::<COUNTS_SIZE>() else {
        return Err(Refusal::BadSize);
    };
    let text = lines_of(counts);
    let bytes = text.bytes();
    let size = bytes.len();
    if room.len() < size {
        return Err(Refusal::NoRoom);
    }
    copy(bytes, room);
    Ok(size)
}
