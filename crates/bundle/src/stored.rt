// The records that stand in a bundle: the lowest that is wrong, and what is wrong with it.
ghost use Rattle.std.specs.Prelude.{◌≡◌, ◌+◌, ◌*◌, ◌≤◌, length, take, drop};
ghost use Rattle.base.specs.Lowest.{lowest};
ghost use Rattle.block.specs.Block.{block_of};
ghost use Rattle.records.specs.Mistake.{Mistaken, record_wrong};
ghost use Rattle.bundle.specs.Layout.{bad_record, blocks_for, sizes_in};
ghost use Rattle.bundle.specs.Reading.{mistake_in};

use crate::read::Sizes;
use block::{Block, RecordPlace};
use records::mistake::{Mistake, mistake_of, number_of, record_wrong};

// Whether the record whose twelve bytes start at a byte of a block is wrong.
fn wrong_in(bytes: &[u8], start: usize, sizes: Sizes) -> bool
    requires { start + 12 ≤ length bytes.now }
    ensures { result ≡ record_wrong sizes.entities sizes.names (take 12 (drop start bytes.now)) }
{
    let end = start + Block::RECORD_SIZE;
    record_wrong(sizes.entities, sizes.names, &bytes[start..end])
}

// What is wrong with the record whose twelve bytes start at a byte of a block.
fn mistake_in(bytes: &[u8], start: usize, sizes: Sizes) -> Option<Mistake>
    requires { start + 12 ≤ length bytes.now }
    ensures { Mistaken sizes.entities sizes.names (take 12 (drop start bytes.now)) result }
{
    let end = start + Block::RECORD_SIZE;
    mistake_of(sizes.entities, sizes.names, &bytes[start..end])
}

// The paper's number of what is wrong with record i of a bundle, counted from 0.
pub(crate) fn mistake_number(bundle: &[u8], sizes: Sizes, i: usize) -> u8
    requires { (512 * block_of i + 512 ≤ length bundle.now) × (sizes ≡ sizes_in bundle.now) }
    ensures { result ≡ mistake_in bundle.now i }
{
    let place = RecordPlace::after(i);
    let k = place.block;
    let start = Block::SIZE * k;
    let end = start + Block::SIZE;
    number_of(mistake_in(&bundle[start..end], place.start, sizes))
}

// Whether record i of a bundle, counted from 0, is wrong over what its block 0 says.
fn bad_record(bundle: &[u8], sizes: Sizes, i: usize) -> bool
    requires { (512 * block_of i + 512 ≤ length bundle.now) × (sizes ≡ sizes_in bundle.now) }
    ensures { result ≡ bad_record bundle.now i }
{
    let place = RecordPlace::after(i);
    let k = place.block;
    let start = Block::SIZE * k;
    let end = start + Block::SIZE;
    wrong_in(&bundle[start..end], place.start, sizes)
}

// The lowest wrong record of a bundle, counted from 0, or the number of records.
pub(crate) fn lowest_bad_record(bundle: &[u8], sizes: Sizes) -> usize
    requires { (512 * blocks_for sizes.records ≤ length bundle.now) × (sizes ≡ sizes_in bundle.now) }
    ensures { result ≡ lowest (bad_record bundle.now) sizes.records }
{
    let n = sizes.records;
    for i in 0..n {
        if bad_record(bundle, sizes, i) {
            return i;
        }
    }
    n
}
