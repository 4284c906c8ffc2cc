// What every list has: the mark of a line and the last line, written into lent memory, and the count of lines.
ghost use Rattle.std.specs.Prelude.{◌<◌};
ghost use Rattle.text.specs.Written.{Wrote};
ghost use Rattle.lines.specs.Text.{end_text};
ghost use Rattle.lines.specs.Passing.{Marked};

use text::{number, put, word};

// Where the next line goes, and how many lines of each kind are written.
#[derive(Clone, Copy, Default)]
pub struct Tally {
    pub next: usize,
    pub sure: u16,
    pub maybe: u16,
}

// The mark behind a key that is written up to a place, and the newline; counted.
pub(crate) fn mark(text: &mut [u8], at: usize, tally: Tally, sure: bool) -> Tally
    requires { (tally.sure < 65535) × (tally.maybe < 65535) }
    ensures { Marked sure text.old at text.new tally result }
{
    if sure {
        return Tally {
            next: word(text, at, b" SURE\n"),
            sure: tally.sure + 1,
            ..tally
        };
    }
    Tally {
        next: word(text, at, b" MAYBE\n"),
        maybe: tally.maybe + 1,
        ..tally
    }
}

// The last line: the two counts.
pub fn end_line(text: &mut [u8], tally: Tally) -> usize
    ensures { Wrote text.old tally.next (end_text tally.sure tally.maybe) text.new result }
{
    let worded = word(text, tally.next, b"END ");
    let first = number(text, worded, tally.sure);
    let spaced = put(text, first, b' ');
    let second = number(text, spaced, tally.maybe);
    put(text, second, b'\n')
}
