// The checks of a bundle's blocks: each block is handed on as a part of the bundle, without a copy.
ghost use Rattle.std.specs.Prelude.{◌≡◌, ◌+◌, ◌*◌, ◌≤◌, length};
ghost use Rattle.bundle.specs.Layout.{bad_check};
ghost use Rattle.rt0.specs.Word.{bits_below};

use block::{Block, check_differs};

// Whether the check of block k of a bundle differs.
fn bad_check(bundle: &[u8], k: usize) -> bool
    requires { 512 * k + 512 ≤ length bundle.now }
    ensures { result ≡ bad_check bundle.now k }
{
    let start = Block::SIZE * k;
    let end = start + Block::SIZE;
    check_differs(&bundle[start..end])
}

// The blocks of a bundle whose checks differ: bit k for block k, none where all are right.
pub(crate) fn bad_checks(bundle: &[u8], blocks: usize) -> u16
    requires { (length bundle.now ≡ 512 * blocks) × (blocks ≤ 7) }
    ensures { result ≡ bits_below (bad_check bundle.now) blocks }
{
    let mut word: u16 = 0;
    for k in 0..blocks {
        if bad_check(bundle, k) {
            word |= 1u16 << k;
        }
    }
    word
}
