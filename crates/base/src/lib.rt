// What serves every crate above: a byte that a slice may not have, and whether a number is not among 1 to most.
// The specs beside it hold "the lowest such" and the one scheme of refusals.
#![tactic(auto)]

ghost use Rattle.std.specs.Prelude.{◌≡◌, ◌<◌};
ghost use Rattle.base.specs.Byte.{byte_at};
ghost use Rattle.base.specs.Range.{outside as outside_of};

pub mod refusal;

// Byte i of a slice, or 0 where it has none.
pub fn byte(bytes: &[u8], i: usize) -> usize
    ensures { (result ≡ byte_at bytes.now i) × (result < 256) }
{
    if i < bytes.len() {
        bytes[i] as usize
    } else {
        0
    }
}

// Whether a number is not among 1 to most.
pub fn outside(most: usize, b: usize) -> bool
    ensures { result ≡ outside_of most b }
{
    (b == 0) | (most < b)
}
