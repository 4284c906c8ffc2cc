// A block of 512 bytes and its check: sizes, places and modulus, and where a record stands among the blocks of a bundle.
#![tactic(auto)]

ghost use Rattle.std.specs.Prelude.{◌≡◌, ◌+◌, ◌*◌, ◌/◌, ◌%◌};
ghost use Rattle.block.specs.Block.{check_of, check_wrong, block_of, start_of};

use base::byte;

// The sizes, places and modulus of a block.
#[derive(Drop)]
pub struct Block;

impl Block {
    pub const SIZE: usize = 512;

    pub const RECORD_SIZE: usize = 12;

    pub const RECORDS: usize = 40;

    pub const NUMBER_PLACE: usize = 508;

    pub const COUNT_PLACE: usize = 509;

    pub const CHECK_PLACE: usize = 510;

    pub const MODULUS: usize = 65521;

    pub const MOST: usize = 7;
}

// Where a record stands: the number of its block, and the byte of that block at which it starts.
#[derive(Clone, Copy)]
pub struct RecordPlace {
    pub block: usize,
    pub start: usize,
}

impl RecordPlace {
    // The place of the record that has so many records before it.
    pub fn after(records: usize) -> Self
        ensures { (result.block ≡ block_of records) × (result.start ≡ start_of records) }
    {
        Self {
            block: records / Block::RECORDS + 1,
            start: Block::RECORD_SIZE * (records % Block::RECORDS),
        }
    }
}

// The check that the bytes of a block have, worked as the keepers do: from the last byte to the first they carry a running total,
// and a total of those totals, which starts at 1. Two bytes to a turn, since two that are read side by side take less time.
pub fn check(bytes: &[u8]) -> usize
    ensures { result ≡ check_of bytes.now }
{
    let mut running: usize = 0;
    let mut totals: usize = 1;
    for turn in (0..Block::CHECK_PLACE / 2).rev() {
        let later = byte(bytes, 2 * turn + 1);
        let earlier = byte(bytes, 2 * turn);
        let between = running + later;
        running = between + earlier;
        totals += between + running;
    }
    totals % Block::MODULUS
}

// Whether the check that a block has differs from the one that stands in it.
pub fn check_differs(bytes: &[u8]) -> bool
    ensures { result ≡ check_wrong bytes.now }
{
    let stored = byte(bytes, Block::CHECK_PLACE) + 256 * byte(bytes, Block::CHECK_PLACE + 1);
    check(bytes) != stored
}
