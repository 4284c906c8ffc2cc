// What a program says, on standard output and on standard error, and the writing of it. What is rightly said of standard input stands in
// specs/, once for every program, and the programs that answer with one text say it by `say`. Each has a `write` of its own, which is
// private: it has to ask that what it writes is rightly said of what was read, and what is public asks nothing.
#![tactic(auto)]

ghost use Rattle.std.specs.Prelude.{ℕ, List, ◌≡◌, ◌<◌, ◌≤◌, length};
ghost use Rattle.answers.specs.Line.{Holds, refusal_line};
ghost use Rattle.said.specs.Said.{HoldsAllowed, Read, Rightly, shown_by};

use answers::line::{Text, empty};
use input::{Failed, Input};
use std::io::Write;

// What a program says: on standard output and on standard error.
#[derive(Clone, Copy)]
pub struct Said {
    pub out: Text,
    pub problem: Text,
}

// A program that answers standard input with one text.
//
// Each has a `run` of its own: a method of this trait that calls `say` would lead back to itself, which the borrow checker does not cover.
pub trait Program {
    // What may be printed for an input.
    ghost prints: { List ℕ → List ℕ → Type 0 };

    // The message where standard input cannot be read to its end.
    ghost unreadable: { List ℕ };

    // The bytes of the longest input that is not refused for its length.
    ghost longest: { ℕ };

    // The answer to an input.
    fn line_for(&self, input: &[u8]) -> Text
        ensures { HoldsAllowed (prints input.now) result };

    // The answer to an input that is longer than the longest.
    fn longer(&self) -> Text
        ensures { Holds result (refusal_line 1 0) };

    // The text of the message.
    fn problem(&self) -> Text
        ensures { Holds result unreadable };

    // A longer input is refused 1 at 0.
    ghost prints_longer: { (input : List ℕ) → longest < length input → prints input (refusal_line 1 0) };
}

// What is said of a buffer, and rightly where standard input was read into it and it has room for the longest input.
pub fn say<P: Program>(program: &P, got: Result<Input, Failed>, buffer: &[u8]) -> Said
    ensures { P.longest ≤ length buffer.now → Read got buffer.now
        → Rightly P.prints P.unreadable got buffer.now result }
{
    match got {
        Ok(Input::Whole(n)) => {
            let end = n.min(buffer.len());
            Said {
                out: program.line_for(&buffer[..end]),
                problem: empty(),
            }
        }
        Ok(Input::Longer) => Said {
            out: program.longer(),
            problem: empty(),
        },
        Err(_) => Said {
            out: empty(),
            problem: program.problem(),
        },
    }
}

// Writes bytes, which are those that a text shows. Where they cannot be written nothing else is said.
fn write_shown<W: Write>(to: &mut W, shown: &[u8], text: Text)
    requires { shown.now ≡ shown_by text }
{
    let _ = to.write_all(shown);
}

// Writes so many bytes of a text's room as its length says, and nothing where there are not so many. The room is handed over by itself:
// of an array that is an argument its number of bytes is known.
fn write_from<W: Write>(to: &mut W, room: [u8; Text::CAPACITY], text: Text)
    requires { room ≡ text.bytes }
{
    let size = text.length;
    if Text::CAPACITY < size {
        return;
    }
    write_shown(to, &room[..size], text);
}

// Writes what a text shows, and nothing where its length is beyond its room.
pub fn write_text<W: Write>(to: &mut W, text: Text) {
    let room = text.bytes;
    write_from(to, room, text);
}
