// What the writer refuses: the stages of both calls, each with the rows of the table of refusals from its own on.
ghost use Rattle.std.specs.Prelude.{◌≡◌, ◌+◌, ◌*◌, ◌<◌, ◌≤◌, ◌++◌, length as length_of_list, take};
ghost use Rattle.base.specs.Lowest.{lowest};
ghost use Rattle.records.specs.Mistake.{mistake_kind, kind_number};
ghost use Rattle.bundle.specs.Layout.{blocks_for};
ghost use Rattle.bundle.specs.Rows.{Reads};
ghost use Rattle.content.specs.Content.{mark_wrong, marks_wrong, listed, whole_records};
ghost use Rattle.writer.specs.Rows.{head_wrong, room_rows, list_rows, write_rows, new_rows, append_rows, wrong_listed, FlawOf, JudgedAs, front_records};

use base::refusal::{Cause, Refusal};
use base::{byte, outside};
use block::Block;
use bundle::edition::Edition;
use bundle::read::{Sizes, read};
use records::mistake::{mistake_of, number_of, record_wrong};

// The most entities and records that a bundle has.
#[derive(Drop)]
pub struct Most;

impl Most {
    pub const ENTITIES: usize = 32;

    pub const RECORDS: usize = 240;
}

// Whether the mark byte of the shelf that has i before it is wrong over so many entities.
fn mark_wrong(entities: usize, i: usize, b: usize) -> bool
    ensures { result ≡ mark_wrong entities i b }
{
    ((i < entities) & ((b != 1) & (b != 2))) | ((entities <= i) & (b != 0))
}

// Whether the marks are wrong.
fn marks_wrong(entities: usize, marks: &[u8]) -> bool
    ensures { result ≡ marks_wrong entities marks.now }
{
    if marks.len() != Most::ENTITIES {
        return true;
    }
    (0..Most::ENTITIES).any(|i| mark_wrong(entities, i, byte(marks, i)))
}

// Whether E, R or the marks are wrong.
fn head_wrong(entities: usize, names: usize, marks: &[u8]) -> bool
    ensures { result ≡ head_wrong entities names marks.now }
{
    outside(Most::ENTITIES, entities)
        | outside(Edition::MOST_NAMES, names)
        | marks_wrong(entities, marks)
}

// Whether so many records are too many, or the buffer too short for them.
fn judge_room(count: usize, size: usize) -> Result<usize, Refusal<usize>>
    ensures { JudgedAs (room_rows count size) result (512 * blocks_for count) }
{
    if Most::RECORDS < count {
        return Err(Cause::TooMany.at(241));
    }
    let length = Block::SIZE * (1 + (count + 39) / Block::RECORDS);
    if size < length {
        return Err(Cause::Room.at(0));
    }
    Ok(length)
}

// Whether record i of a list is wrong.
fn wrong_at(entities: usize, names: usize, records: &[u8], i: usize) -> bool
    requires { 12 * i + 12 ≤ length_of_list records.now }
    ensures { result ≡ wrong_listed entities names records.now i }
{
    let start = Block::RECORD_SIZE * i;
    let end = start + Block::RECORD_SIZE;
    record_wrong(entities, names, &records[start..end])
}

// The paper's number of what is wrong with record i of a list.
fn mistake_at(entities: usize, names: usize, records: &[u8], i: usize) -> u8
    requires { 12 * i + 12 ≤ length_of_list records.now }
    ensures { result ≡ kind_number (mistake_kind entities names (listed records.now i)) }
{
    let start = Block::RECORD_SIZE * i;
    let end = start + Block::RECORD_SIZE;
    number_of(mistake_of(entities, names, &records[start..end]))
}

// The lowest wrong record of a list, counted from 0, or the number of its records.
fn lowest_wrong(entities: usize, names: usize, records: &[u8]) -> usize
    ensures { result ≡ lowest (wrong_listed entities names records.now) (whole_records records.now) }
{
    let count = records.len() / Block::RECORD_SIZE;
    for i in 0..count {
        if wrong_at(entities, names, records, i) {
            return i;
        }
    }
    count
}

// Whether a list of records is right, or else what is wrong with its lowest wrong record.
pub fn flaw_of(entities: usize, names: usize, records: &[u8]) -> Result<(), Refusal<usize>>
    ensures { FlawOf entities names records.now result }
{
    let i = lowest_wrong(entities, names, records);
    if i < records.len() / Block::RECORD_SIZE {
        return Err(Refusal {
            number: mistake_at(entities, names, records, i),
            place: i + 1,
        });
    }
    Ok(())
}

// The records of a list, and then whether there is room.
fn judge_list(
    entities: usize,
    names: usize,
    records: &[u8],
    size: usize,
) -> Result<usize, Refusal<usize>>
    ensures { JudgedAs (list_rows entities names records.now ++ room_rows (whole_records records.now) size) result
        (512 * blocks_for (whole_records records.now)) }
{
    flaw_of(entities, names, records)?;
    judge_room(records.len() / Block::RECORD_SIZE, size)
}

// What a new bundle is to be written from, for a buffer of so many bytes.
pub(crate) fn judge_write(
    entities: usize,
    names: usize,
    marks: &[u8],
    records: &[u8],
    size: usize,
) -> Result<usize, Refusal<usize>>
    ensures { JudgedAs (write_rows entities names marks.now records.now size) result
        (512 * blocks_for (whole_records records.now)) }
{
    if records.len() % Block::RECORD_SIZE != 0 {
        return Err(Cause::Length.at(0));
    }
    if head_wrong(entities, names, marks) {
        return Err(Cause::Layout.at(0));
    }
    judge_list(entities, names, records, size)
}

// A record that is to be put last behind so many, and then whether there is room.
fn judge_record(sizes: Sizes, record: &[u8], size: usize) -> Result<usize, Refusal<usize>>
    requires { sizes.records ≤ 240 }
    ensures { JudgedAs (new_rows sizes.entities sizes.names sizes.records «record».now ++ room_rows (sizes.records + 1) size) result
        (512 * blocks_for (sizes.records + 1)) }
{
    if let Some(mistake) = mistake_of(sizes.entities, sizes.names, record) {
        return Err(Cause::from(mistake).at(sizes.records + 1));
    }
    judge_room(sizes.records + 1, size)
}

// What the reader says of the front of a buffer.
fn read_front(bundle: &[u8], length: usize) -> Result<Sizes, Refusal<u16>>
    requires { length ≤ length_of_list bundle.now }
    ensures { Reads (take length bundle.now) result }
{
    let start = 0;
    let end = start + length;
    read(&bundle[start..end])
}

// Whether a record can be put last in the bundle of this length at the front of a buffer.
pub(crate) fn judge_append(
    bundle: &[u8],
    length: usize,
    record: &[u8],
) -> Result<usize, Refusal<usize>>
    ensures { JudgedAs (append_rows bundle.now length «record».now) result
        (512 * blocks_for (front_records bundle.now length + 1)) }
{
    let size = bundle.len();
    if (size < length) | (record.len() != Block::RECORD_SIZE) {
        return Err(Cause::Length.at(0));
    }
    let sizes = read_front(bundle, length)?;
    judge_record(sizes, record, size)
}
