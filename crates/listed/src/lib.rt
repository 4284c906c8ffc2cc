// What the programs of lists say, and the writing of it: a list that stands in lent memory, or the line of a refusal, and a message. The
// programs say it by `say`. Each has a `write` of its own, which is private: it has to ask that what it writes is rightly said of what was read,
// and what is public asks nothing.
#![tactic(auto)]

ghost use Rattle.std.specs.Prelude.{ℕ, List, [], ◌≡◌, ◌≤◌, length, take};
ghost use Rattle.answers.specs.Line.{Holds};
ghost use Rattle.said.specs.Said.{PrintsLonger, Read};
ghost use Rattle.listed.specs.Listing.{ListsAllowed, RightlyListed, Tells};

use answers::line::{Text, empty, refusal};
use base::refusal::Refusal;
use input::{Failed, Input};
use said::write_text;
use std::io::Write;

// So many bytes of the lent text and then a line on standard output, and a message on standard error.
#[derive(Clone, Copy)]
pub struct Listing {
    pub length: usize,
    pub line: Text,
    pub problem: Text,
}

// What is said of an answer: the text that it left, or the line of its refusal.
pub fn listing_of(listed: Result<usize, Refusal<u16>>) -> Listing
    ensures { Tells listed result }
{
    match listed {
        Ok(n) => Listing {
            length: n,
            line: empty(),
            problem: empty(),
        },
        Err(refused) => Listing {
            length: 0,
            line: refusal(refused.number, refused.place),
            problem: empty(),
        },
    }
}

// A program that answers standard input with a list in lent memory.
//
// Each has a `run` of its own: a method of this trait that calls `say` would lead back to itself, which the borrow checker does not cover.
pub trait ListProgram {
    // What may be printed for an input.
    ghost prints: { List ℕ → List ℕ → Type 0 };

    // The message where standard input cannot be read to its end.
    ghost unreadable: { List ℕ };

    // The fewest bytes of a buffer for standard input by which a longer input is rightly answered.
    ghost least_buffer: { ℕ };

    // The fewest bytes of memory for the text by which an input is rightly answered.
    ghost least_text: { ℕ };

    // The answer to an input.
    fn listing_for(&self, input: &[u8], text: &mut [u8]) -> Listing
        ensures { least_text ≤ length text.old
            → ListsAllowed text.new result (prints input.now) × Holds result.problem [] };

    // The answer to every input that is longer than the buffer, which holds its first bytes.
    fn longer(&self, buffer: &[u8], text: &mut [u8]) -> Listing
        ensures { least_buffer ≤ length buffer.now → least_text ≤ length text.old
            → ListsAllowed text.new result (PrintsLonger prints buffer.now) × Holds result.problem [] };

    // The text of the message.
    fn problem(&self) -> Text
        ensures { Holds result unreadable };
}

// What is said of a buffer, and rightly where standard input was read into it and buffer and text have room enough.
pub fn say<P: ListProgram>(
    program: &P,
    got: Result<Input, Failed>,
    buffer: &[u8],
    text: &mut [u8],
) -> Listing
    ensures { P.least_buffer ≤ length buffer.now → Read got buffer.now → P.least_text ≤ length text.old
        → RightlyListed P.prints P.unreadable got buffer.now text.new result }
{
    match got {
        Ok(Input::Whole(n)) => {
            let end = n.min(buffer.len());
            program.listing_for(&buffer[..end], text)
        }
        Ok(Input::Longer) => program.longer(buffer, text),
        Err(_) => Listing {
            length: 0,
            line: empty(),
            problem: program.problem(),
        },
    }
}

// Writes bytes, which are the first ones of a text. Where they cannot be written nothing else is said.
fn write_part<W: Write>(to: &mut W, part: &[u8], text: &[u8], size: usize)
    requires { part.now ≡ take size text.now }
{
    let _ = to.write_all(part);
}

// Writes the first bytes of a text, and nothing where it has not so many.
pub fn write_front<W: Write>(to: &mut W, text: &[u8], size: usize) {
    if text.len() < size {
        return;
    }
    write_part(to, &text[..size], text, size);
}

// Writes what a listing says.
pub fn write_listing<O: Write, E: Write>(
    stdout: &mut O,
    stderr: &mut E,
    listing: Listing,
    text: &[u8],
) {
    write_front(stdout, text, listing.length);
    write_text(stdout, listing.line);
    write_text(stderr, listing.problem);
}
