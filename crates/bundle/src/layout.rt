// The layout of block 0, and of what stands beside the records of a record block: each byte by its own test.
ghost use Rattle.std.specs.Prelude.{◌≡◌, ◌+◌, ◌-◌, ◌*◌, ◌<◌, ◌≤◌, length};
ghost use Rattle.bundle.specs.Layout.{first_byte_wrong, first_wrong, records_in, beside_byte_wrong, beside_wrong, records_of, bad_beside};
ghost use Rattle.base.specs.Lowest.{lowest};
ghost use Rattle.base.specs.Byte.{byte_at};

use crate::edition::{Edition, edition_for};
use base::{byte, outside};
use block::Block;

// Whether byte i of block 0 is wrong, where byte 0 should be this edition.
fn first_byte_wrong(first: &[u8], edition: usize, i: usize) -> bool
    ensures { result ≡ first_byte_wrong edition (byte_at first.now 1) i (byte_at first.now i) }
{
    let entities = byte(first, 1);
    let b = byte(first, i);
    ((i == 0) & (b != edition))
        | ((i == 1) & outside(32, b))
        | ((i == 2) & outside(Edition::MOST_NAMES, b))
        | ((i == 3) & (240 < b))
        | (((4 <= i) & (i <= 3 + entities)) & ((b != 1) & (b != 2)))
        | (((4 <= i) & (3 + entities < i)) & (b != 0))
}

// Whether block 0 breaks its layout.
pub fn first_wrong(first: &[u8]) -> bool
    ensures { result ≡ first_wrong first.now }
{
    let edition = edition_for(byte(first, 2)) as usize;
    for i in 0..Block::CHECK_PLACE {
        if first_byte_wrong(first, edition, i) {
            return true;
        }
    }
    false
}

// The number of records in record block j + 1 of a bundle of n.
pub fn records_in(n: usize, j: usize) -> usize
    ensures { (result ≡ records_in n j) × (result ≤ 40) }
{
    if n / Block::RECORDS < j {
        return 0;
    }
    let rest = n - Block::RECORDS * j;
    if Block::RECORDS < rest {
        Block::RECORDS
    } else {
        rest
    }
}

// Whether byte i of record block j + 1 with so many records is wrong.
fn beside_byte_wrong(bytes: &[u8], j: usize, records: usize, i: usize) -> bool
    requires { (j < 7) × (records ≤ 40) }
    ensures { result ≡ beside_byte_wrong j records i (byte_at bytes.now i) }
{
    let b = byte(bytes, i);
    (((Block::RECORD_SIZE * records <= i) & (i < Block::NUMBER_PLACE)) & (b != 0))
        | ((i == Block::NUMBER_PLACE) & (b != j + 1))
        | ((i == Block::COUNT_PLACE) & (b != records))
}

// Whether the bytes beside the records of record block j + 1 with so many records are wrong.
fn beside_wrong(bytes: &[u8], j: usize, records: usize) -> bool
    requires { (j < 7) × (records ≤ 40) }
    ensures { result ≡ beside_wrong j records bytes.now }
{
    for i in 0..Block::CHECK_PLACE {
        if beside_byte_wrong(bytes, j, records, i) {
            return true;
        }
    }
    false
}

// Whether the bytes beside the records of record block j + 1 of a bundle of n records are wrong.
fn bad_beside(bundle: &[u8], n: usize, j: usize) -> bool
    requires { (j < 6) × (512 * (j + 1) + 512 ≤ length bundle.now) × (n ≡ records_of bundle.now) }
    ensures { result ≡ bad_beside bundle.now j }
{
    let start = Block::SIZE * (j + 1);
    let end = start + Block::SIZE;
    beside_wrong(&bundle[start..end], j, records_in(n, j))
}

// The lowest of so many record blocks, counted from 0, whose bytes beside the records are wrong, or their number.
pub(crate) fn lowest_bad_beside(bundle: &[u8], n: usize, blocks: usize) -> usize
    requires { (blocks ≤ 6) × (512 * (blocks + 1) ≤ length bundle.now) × (n ≡ records_of bundle.now) }
    ensures { result ≡ lowest (bad_beside bundle.now) blocks }
{
    for j in 0..blocks {
        if bad_beside(bundle, n, j) {
            return j;
        }
    }
    blocks
}
