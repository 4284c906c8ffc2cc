// The line of one record: its number, WELL with the shelves that must hold it in rising number, or ILL.
ghost use Rattle.std.specs.Prelude.{◌≡◌, ◌<◌};
ghost use Rattle.text.specs.Written.{Wrote};
ghost use Rattle.words.specs.Sizes.{most_entities};
ghost use Rattle.holder_lines.specs.Text.{shelf_text, shelves_text, line_text, well_of};

use text::{number, put, word};
use words::table::Table;

// A shelf, counted from 0, where its bit is 1.
fn shelf(text: &mut [u8], at: usize, shelves: u32, i: usize) -> usize
    requires { i < most_entities }
    ensures { Wrote text.old at (shelf_text shelves i) text.new result }
{
    if (shelves >> i) % 2 == 1 {
        let spaced = put(text, at, b' ');
        return number(text, spaced, (i + 1) as u16);
    }
    at
}

// All shelves of a word.
fn write_shelves(text: &mut [u8], at: usize, shelves: u32) -> usize
    ensures { Wrote text.old at (shelves_text shelves most_entities) text.new result }
{
    let mut next = at;
    for i in 0..Table::ENTITIES {
        next = shelf(text, next, shelves, i);
    }
    next
}

// The line of a record.
pub(crate) fn write_line(text: &mut [u8], at: usize, n: u16, said: Option<u32>) -> usize
    ensures { Wrote text.old at (line_text n said) text.new result }
{
    match said {
        Some(shelves) => {
            let numbered = number(text, at, n);
            let well = word(text, numbered, b" WELL");
            let held = write_shelves(text, well, shelves);
            put(text, held, b'\n')
        }
        None => {
            let numbered = number(text, at, n);
            word(text, numbered, b" ILL\n")
        }
    }
}

// 1 for a record that is structurally well typed, 0 for another.
pub(crate) fn well_one(said: Option<u32>) -> u16
    ensures { result ≡ well_of said }
{
    match said {
        Some(_) => 1,
        None => 0,
    }
}
