// A line of a slip, as bytes.
ghost use Rattle.std.specs.Prelude.{◌≡◌};
ghost use Rattle.rt0.specs.Slip.{line};
ghost use Rattle.premises.specs.Line.{line_by, with_line};

use crate::premise::{Premises, premises_of};
use records::form::Record;

// One more line behind so many lines: the member, the credential's number and the premises, low byte first. Where there is no room
// nothing is written.
fn put(slip: &mut [u8], lines: usize, member: u8, credential: u8, premises: Premises)
    ensures { slip.new ≡ with_line slip.old lines
        (line member credential premises.first premises.second premises.third) }
{
    if slip.len() / 8 <= lines {
        return;
    }
    let at = 8 * lines;
    slip[at] = member;
    slip[at + 1] = credential;
    slip[at + 2] = (premises.first % 256) as u8;
    slip[at + 3] = (premises.first / 256) as u8;
    slip[at + 4] = (premises.second % 256) as u8;
    slip[at + 5] = (premises.second / 256) as u8;
    slip[at + 6] = (premises.third % 256) as u8;
    slip[at + 7] = (premises.third / 256) as u8;
}

// One more line behind so many lines: that a record, by its number, gives a member, with the premises that the index has for it. Where
// there is no room nothing is written.
pub fn write_line(
    words: &[u32],
    index: &[u16],
    record: Option<Record>,
    credential: u8,
    member: u8,
    slip: &mut [u8],
    lines: usize,
)
    ensures { slip.new ≡ with_line slip.old lines
        (line_by words.now index.now «record» credential member) }
{
    let premises = premises_of(words, index, record, member as usize);
    put(slip, lines, member, credential, premises);
}
