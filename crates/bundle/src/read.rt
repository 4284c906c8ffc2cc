// The reader: from any bytes to what block 0 says, or to the first refusal that applies with its place.
ghost use Rattle.std.specs.Prelude.{◌≡◌, ◌+◌, ◌*◌, ◌<◌, ◌≤◌, length};
ghost use Rattle.bundle.specs.Layout.{blocks_for, blocks as blocks_of, sizes_in};
ghost use Rattle.bundle.specs.Rows.{Reads};
ghost use Rattle.bundle.specs.Reading.{read_by, record_tests, beside_tests, count_tests, first_tests};

use crate::checks::bad_checks;
use crate::layout::{first_wrong, lowest_bad_beside};
use crate::stored::{lowest_bad_record, mistake_number};
use base::byte;
use base::refusal::{Cause, Refusal};
use block::Block;

// What block 0 says: the number of entities, of role names and of records.
#[derive(Clone, Copy)]
pub struct Sizes {
    pub entities: usize,
    pub names: usize,
    pub records: usize,
}

// What block 0 says, for any bytes.
pub fn sizes_of(bundle: &[u8]) -> Sizes
    ensures { (result ≡ sizes_in bundle.now) × (result.records < 256) }
{
    Sizes {
        entities: byte(bundle, 1),
        names: byte(bundle, 2),
        records: byte(bundle, 3),
    }
}

// The records, at last.
fn read_records(bundle: &[u8], sizes: Sizes) -> Result<Sizes, Refusal<u16>>
    requires { (512 * blocks_for sizes.records ≤ length bundle.now) × (sizes ≡ sizes_in bundle.now) × (sizes.records < 256) }
    ensures { result ≡ read_by bundle.now (record_tests bundle.now) }
{
    let i = lowest_bad_record(bundle, sizes);
    if i < sizes.records {
        return Err(Refusal {
            number: mistake_number(bundle, sizes, i),
            place: (i + 1) as u16,
        });
    }
    Ok(sizes)
}

// The bytes beside the records of so many blocks.
fn read_beside(bundle: &[u8], sizes: Sizes, blocks: usize) -> Result<Sizes, Refusal<u16>>
    requires { (blocks ≤ 7) × (blocks ≡ blocks_of bundle.now) × (512 * blocks ≤ length bundle.now)
        × (blocks ≡ blocks_for sizes.records) × (sizes ≡ sizes_in bundle.now) × (sizes.records < 256) }
    ensures { result ≡ read_by bundle.now (beside_tests bundle.now) }
{
    let j = lowest_bad_beside(bundle, sizes.records, blocks - 1);
    if j < blocks - 1 {
        return Err(Cause::Beside.at((j + 1) as u16));
    }
    read_records(bundle, sizes)
}

// Whether the number of blocks fits N.
fn read_count(bundle: &[u8], sizes: Sizes, blocks: usize) -> Result<Sizes, Refusal<u16>>
    requires { (blocks ≤ 7) × (blocks ≡ blocks_of bundle.now) × (512 * blocks ≤ length bundle.now)
        × (sizes ≡ sizes_in bundle.now) × (sizes.records < 256) }
    ensures { result ≡ read_by bundle.now (count_tests bundle.now) }
{
    if blocks != 1 + (sizes.records + 39) / Block::RECORDS {
        return Err(Cause::BlockCount.at(0));
    }
    read_beside(bundle, sizes, blocks)
}

// Block 0.
fn read_first(bundle: &[u8], blocks: usize) -> Result<Sizes, Refusal<u16>>
    requires { (1 ≤ blocks) × (blocks ≤ 7) × (blocks ≡ blocks_of bundle.now) × (512 * blocks ≤ length bundle.now) }
    ensures { result ≡ read_by bundle.now (first_tests bundle.now) }
{
    let start = 0;
    let end = start + Block::SIZE;
    if first_wrong(&bundle[start..end]) {
        return Err(Cause::Layout.at(0));
    }
    read_count(bundle, sizes_of(bundle), blocks)
}

// The answer to every bundle.
pub fn read(bundle: &[u8]) -> Result<Sizes, Refusal<u16>>
    ensures { Reads bundle.now result }
{
    let size = bundle.len();
    if (size == 0) | (Block::SIZE * Block::MOST < size) | (size % Block::SIZE != 0) {
        return Err(Cause::Length.at(0));
    }
    let blocks = size / Block::SIZE;
    let bad = bad_checks(bundle, blocks);
    if bad != 0 {
        return Err(Cause::Checks.at(bad));
    }
    read_first(bundle, blocks)
}
