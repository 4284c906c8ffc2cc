// A letter written from records: first judged record by record, then the lines stored.
ghost use Rattle.std.specs.Prelude.{◌≡◌, ◌≤◌, length as length_of_list};
ghost use Rattle.content.specs.Content.{whole_records};
ghost use Rattle.text.specs.Written.{Wrote as WroteFrom};
ghost use Rattle.letters.specs.Lines.{text_of, credentials_in, counted_bytes, ShortLines};
ghost use Rattle.letters.specs.Rows.{text_rows, write_rows};
ghost use Rattle.letters.specs.Promise.{Says, Writes};

use crate::out_of_range;
use base::refusal::{Cause, Refusal};
use block::Block;
use spelling::{line_length, put_line};
use writer::judge::{Most, flaw_of};

// The number of bytes of the lines of a list.
fn text_length(records: &[u8]) -> usize
    requires { whole_records records.now ≤ 240 }
    ensures { result ≡ counted_bytes records.now (whole_records records.now) }
{
    let mut total: usize = 0;
    for record in records.chunks_exact(Block::RECORD_SIZE) {
        total += line_length(record);
    }
    total
}

// Whether a list has too many records, or the buffer is too short for their lines.
fn judge_room(records: &[u8], size: usize) -> Result<usize, Refusal<usize>>
    requires { ShortLines records.now }
    ensures { Says (text_rows records.now size) result (length_of_list (text_of (credentials_in records.now))) }
{
    if Most::RECORDS < records.len() / Block::RECORD_SIZE {
        return Err(Cause::TooMany.at(241));
    }
    let length = text_length(records);
    if size < length {
        return Err(Cause::Room.at(0));
    }
    Ok(length)
}

// A list of records, for a buffer of so many bytes.
fn judge_records(
    entities: usize,
    names: usize,
    records: &[u8],
    size: usize,
) -> Result<usize, Refusal<usize>>
    ensures { Says (write_rows entities names records.now size) result (length_of_list (text_of (credentials_in records.now))) }
{
    if records.len() % Block::RECORD_SIZE != 0 {
        return Err(Cause::Length.at(0));
    }
    if out_of_range(entities, names) {
        return Err(Cause::Layout.at(0));
    }
    flaw_of(entities, names, records)?;
    judge_room(records, size)
}

// The lines of all records, stored from the front on.
fn fill_text(text: &mut [u8], records: &[u8]) -> usize
    ensures { WroteFrom text.old 0 (text_of (credentials_in records.now)) text.new result }
{
    let mut at: usize = 0;
    for record in records.chunks_exact(Block::RECORD_SIZE) {
        at = put_line(text, at, record);
    }
    at
}

// Writes the letter of a list of records at the front of a buffer: the number of its bytes.
pub fn write_lines(
    entities: u8,
    names: u8,
    records: &[u8],
    text: &mut [u8],
) -> Result<usize, Refusal<usize>>
    ensures { Writes entities names records.now text.old result text.new }
{
    let length = judge_records(entities as usize, names as usize, records, text.len())?;
    let _end = fill_text(text, records);
    Ok(length)
}
