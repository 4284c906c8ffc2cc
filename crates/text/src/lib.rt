// Text in lent memory: bytes, words and decimal numbers, each written from a place on as far as there is room. Each function gives the
// place behind what it wrote.
#![tactic(auto)]

ghost use Rattle.std.specs.Prelude.{[], ◌∷◌};
ghost use Rattle.text.specs.Decimal.{decimal};
ghost use Rattle.text.specs.Written.{Wrote};

// One byte.
pub fn put(to: &mut [u8], at: usize, byte: u8) -> usize
    ensures { Wrote to.old at (byte ∷ []) to.new result }
{
    if at < to.len() {
        to[at] = byte;
        at + 1
    } else {
        at
    }
}

// The letters of a word.
pub fn word(to: &mut [u8], at: usize, letters: &[u8]) -> usize
    ensures { Wrote to.old at letters.now to.new result }
{
    let mut next = at;
    for letter in letters {
        next = put(to, next, *letter);
    }
    next
}

// A number in decimal: the digits before the last one, then the last one.
pub fn number(to: &mut [u8], at: usize, n: u16) -> usize
    ensures { Wrote to.old at (decimal n) to.new result }
{
    if n < 10 {
        put(to, at, b'0' + n as u8)
    } else {
        let next = number(to, at, n / 10);
        put(to, next, b'0' + (n % 10) as u8)
    }
}
