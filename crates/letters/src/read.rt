// A letter read into records: first judged line by line, then its records stored.
ghost use Rattle.std.specs.Prelude.{◌*◌, ◌<◌, ◌≤◌};
ghost use Rattle.text.specs.Written.{Wrote as WroteFrom};
ghost use Rattle.letters.specs.Lines.{lines_of, candidates_of};
ghost use Rattle.letters.specs.Rows.{line_rows, room_rows, read_rows};
ghost use Rattle.letters.specs.Promise.{Says, JudgedText, Reads};

use crate::out_of_range;
use base::refusal::{Cause, Refusal};
use block::Block;
use candidates::find::candidate;
use candidates::right::right_line;
use text::word;
use writer::judge::Most;

// Whether there is room for the records of so many lines.
fn judge_room(lines: usize, size: usize) -> Result<usize, Refusal<usize>>
    requires { lines ≤ 240 }
    ensures { Says (room_rows lines size) result (12 * lines) }
{
    let length = Block::RECORD_SIZE * lines;
    if size < length {
        Err(Cause::Room.at(0))
    } else {
        Ok(length)
    }
}

// The lines of a text, up to the first wrong one or to line 240, and then whether there is room.
fn judge_lines(
    entities: usize,
    names: usize,
    text: &[u8],
    size: usize,
) -> Result<usize, Refusal<usize>>
    requires { (entities < 100) × (names < 100) }
    ensures { JudgedText (line_rows entities names text.now size) entities names text.now result }
{
    let mut at: usize = 0;
    let mut lines: usize = 0;
    for line in text.split_inclusive(|b| *b == b'\n').take(Most::RECORDS) {
        let next = lines + 1;
        if !right_line(entities, names, line) {
            return Err(Cause::Letter.at(next));
        }
        at += line.len();
        lines = next;
    }
    if at < text.len() {
        return Err(Cause::TooMany.at(241));
    }
    judge_room(lines, size)
}

// A text, for a buffer of so many bytes.
fn judge_text(
    entities: usize,
    names: usize,
    text: &[u8],
    size: usize,
) -> Result<usize, Refusal<usize>>
    ensures { JudgedText (read_rows entities names text.now size) entities names text.now result }
{
    if out_of_range(entities, names) {
        return Err(Cause::Layout.at(0));
    }
    judge_lines(entities, names, text, size)
}

// The records of all lines, stored from the front on.
fn fill_records(text: &[u8], records: &mut [u8]) -> usize
    ensures { WroteFrom records.old 0 (candidates_of (lines_of text.now)) records.new result }
{
    let mut place: usize = 0;
    for line in text.split_inclusive(|b| *b == b'\n') {
        place = word(records, place, &candidate(line));
    }
    place
}

// Reads a letter into the front of a buffer: the number of bytes of its records.
pub fn read_lines(
    entities: u8,
    names: u8,
    text: &[u8],
    records: &mut [u8],
) -> Result<usize, Refusal<usize>>
    ensures { Reads entities names text.now records.old result records.new }
{
    let length = judge_text(entities as usize, names as usize, text, records.len())?;
    let _end = fill_records(text, records);
    Ok(length)
}
