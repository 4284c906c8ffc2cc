// A block with its check: worked out over its first 510 bytes and stored behind them, low byte first.
ghost use Rattle.std.specs.Prelude.{◌≡◌, ◌+◌, ◌*◌, ◌≤◌, length};
ghost use Rattle.base.specs.Byte.{byte_at};
ghost use Rattle.content.specs.Encode.{sealed_block};
ghost use Rattle.content.specs.InPlace.{sealed_at};

use block::{Block, check};

// Works out the check of a block and stores it.
pub(crate) fn seal(bytes: &mut [u8])
    requires { length bytes.old ≡ 512 }
    ensures { bytes.new ≡ sealed_block (byte_at bytes.old) }
{
    let found = check(bytes);
    bytes[Block::CHECK_PLACE] = (found % 256) as u8;
    bytes[Block::CHECK_PLACE + 1] = (found / 256) as u8;
}

// Works out the check of block k of a buffer and stores it.
pub(crate) fn seal_block(bundle: &mut [u8], k: usize)
    requires { 512 * k + 512 ≤ length bundle.old }
    ensures { bundle.new ≡ sealed_at bundle.old k }
{
    let start = Block::SIZE * k;
    let end = start + Block::SIZE;
    seal(&mut bundle[start..end]);
}
