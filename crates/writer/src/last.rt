// One record put last, in place: the record block concerned from the record's place on, and the number of records in block 0.
ghost use Rattle.std.specs.Prelude.{◌≡◌, suc, ◌+◌, ◌*◌, ◌<◌, ◌≤◌, length};
ghost use Rattle.base.specs.Byte.{byte_at};
ghost use Rattle.block.specs.Block.{block_of, start_of};
ghost use Rattle.bundle.specs.Layout.{blocks_for};
ghost use Rattle.content.specs.InPlace.{Filled, last_byte, placed, PutBlock, PutLast};

use crate::seal::seal_block;
use base::byte;
use block::{Block, RecordPlace};

// Byte i of a record block from the place of its last record on, which has n before it in the bundle.
fn last_byte(record: &[u8], n: usize, i: usize) -> usize
    requires { (n < 240) × (start_of n ≤ i) }
    ensures { (result ≡ last_byte n «record».now i) × (result < 256) }
{
    let place = RecordPlace::after(n);
    if i < Block::NUMBER_PLACE {
        byte(record, i - place.start)
    } else if i == Block::NUMBER_PLACE {
        place.block
    } else {
        n % Block::RECORDS + 1
    }
}

// Puts the record that has n before it last in its block, whose check stays as it is.
fn put_record(bytes: &mut [u8], n: usize, record: &[u8])
    requires { (length bytes.old ≡ 512) × (n < 240) }
    ensures { Filled (placed n «record».now (byte_at bytes.old)) 510 bytes.new }
{
    let start = Block::RECORD_SIZE * (n % Block::RECORDS);
    for i in start..Block::CHECK_PLACE {
        bytes[i] = last_byte(record, n, i) as u8;
    }
}

// The record block concerned, as a part of the buffer.
fn put_block(bundle: &mut [u8], n: usize, record: &[u8])
    requires { (n < 240) × (512 * block_of n + 512 ≤ length bundle.old) }
    ensures { PutBlock n «record».now bundle.old bundle.new }
{
    let k = n / Block::RECORDS + 1;
    let start = Block::SIZE * k;
    let end = start + Block::SIZE;
    put_record(&mut bundle[start..end], n, record);
}

// Puts a record last in the bundle that stands at the front of a buffer with room for it: the record, the number of records in block 0, and
// the checks of these two blocks.
pub(crate) fn put_last(bundle: &mut [u8], record: &[u8])
    requires { (byte_at bundle.old 3 < 240) × (512 * blocks_for (suc (byte_at bundle.old 3)) ≤ length bundle.old) }
    ensures { PutLast bundle.old «record».now bundle.new }
{
    let n = byte(bundle, 3);
    put_block(bundle, n, record);
    bundle[3] = (n + 1) as u8;
    seal_block(bundle, n / Block::RECORDS + 1);
    seal_block(bundle, 0);
}
