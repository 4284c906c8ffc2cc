// The blocks of a new bundle, each byte from E, R, the marks and the list of records.
ghost use Rattle.std.specs.Prelude.{◌≡◌, ◌+◌, ◌*◌, ◌%◌, ◌<◌, ◌≤◌, length};
ghost use Rattle.bundle.specs.Edition.{edition_for};
ghost use Rattle.bundle.specs.Layout.{blocks_for};
ghost use Rattle.content.specs.Content.{whole_records, content_from};
ghost use Rattle.content.specs.Encode.{sealed_block, written};
ghost use Rattle.content.specs.InPlace.{replaced, given_byte, listed_byte};

use crate::seal::seal;
use base::byte;
use block::Block;
use bundle::edition::edition_for;
use bundle::layout::records_in;

// Byte i of block 0.
fn first_byte(entities: u8, names: u8, count: u8, marks: &[u8], i: usize) -> u8
    ensures { result ≡ given_byte (edition_for names) entities names count marks.now i }
{
    if i == 0 {
        return edition_for(names as usize);
    }
    if i == 1 {
        return entities;
    }
    if i == 2 {
        return names;
    }
    if i == 3 {
        count
    } else {
        byte(marks, i - 4) as u8
    }
}

// Block 0.
fn fill_first(bytes: &mut [u8], entities: u8, names: u8, count: u8, marks: &[u8])
    requires { length bytes.old ≡ 512 }
    ensures { bytes.new ≡ sealed_block (given_byte (edition_for names) entities names count marks.now) }
{
    for i in 0..Block::CHECK_PLACE {
        bytes[i] = first_byte(entities, names, count, marks, i);
    }
    seal(bytes);
}

// Byte i of record block j + 1.
fn listed_byte(records: &[u8], j: usize, i: usize) -> usize
    requires { (j < 6) × (i < 510) }
    ensures { (result ≡ listed_byte records.now j i) × (result < 256) }
{
    if i < Block::RECORD_SIZE * Block::RECORDS {
        byte(records, Block::RECORD_SIZE * Block::RECORDS * j + i)
    } else if i < Block::NUMBER_PLACE {
        0
    } else if i == Block::NUMBER_PLACE {
        j + 1
    } else {
        records_in(records.len() / Block::RECORD_SIZE, j)
    }
}

// Record block j + 1.
fn fill_records(bytes: &mut [u8], records: &[u8], j: usize)
    requires { (length bytes.old ≡ 512) × (j < 6) }
    ensures { bytes.new ≡ sealed_block (listed_byte records.now j) }
{
    for i in 0..Block::CHECK_PLACE {
        bytes[i] = listed_byte(records, j, i) as u8;
    }
    seal(bytes);
}

// Record block j + 1, as a part of the buffer.
fn fill_block(bundle: &mut [u8], records: &[u8], j: usize)
    requires { (j < 6) × (512 * (j + 1) + 512 ≤ length bundle.old) }
    ensures { bundle.new ≡ replaced bundle.old (j + 1) (sealed_block (listed_byte records.now j)) }
{
    let start = Block::SIZE * (j + 1);
    let end = start + Block::SIZE;
    fill_records(&mut bundle[start..end], records, j);
}

// All blocks, at the front of a buffer with room for them.
pub(crate) fn fill(entities: u8, names: u8, marks: &[u8], records: &[u8], bundle: &mut [u8])
    requires { (length records.now % 12 ≡ 0) × (whole_records records.now ≤ 240)
        × (512 * blocks_for (whole_records records.now) ≤ length bundle.old) }
    ensures { bundle.new ≡ written (content_from entities names marks.now records.now) bundle.old }
{
    let count = records.len() / Block::RECORD_SIZE;
    let start = 0;
    let end = start + Block::SIZE;
    fill_first(&mut bundle[start..end], entities, names, count as u8, marks);
    let blocks = (count + 39) / Block::RECORDS;
    for j in 0..blocks {
        fill_block(bundle, records, j);
    }
}
