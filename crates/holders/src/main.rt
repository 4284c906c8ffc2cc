// The program `holders`: a sheet and then a bundle from standard input, and what is said of every record as the answer.
//
// Its buffer has room for a sheet and the longest bundle. So input that is longer than the buffer is refused for its length, and never cut to
// a bundle. Where standard input cannot be read to its end it prints no line, but a message on standard error.
#![tactic(auto)]

ghost use Rattle.std.specs.Prelude.{◌≤◌, length, []};
ghost use Rattle.answers.specs.Line.{Holds};
ghost use Rattle.holder_lines.specs.Sizes.{holders_bytes};
ghost use Rattle.holder_lines.specs.Promise.{HoldersPromise};
ghost use Rattle.listed.specs.Listing.{ListsAllowed, RightlyListed};
ghost use Rattle.holders.specs.Input.{longest_input, sheet_of, bundle_of};
ghost use Rattle.holders.specs.Prints.{Prints, unreadable};

use answers::line::{Text, empty, message, refusal};
use asked::bundle_start;
use base::refusal::Refusal;
use block::Block;
use holder_lines::Room;
use input::{Failed, Input, fill};
use listed::{ListProgram, Listing, listing_of, say, write_listing};
use std::io::{Read, Write};

// The memory of the program.
#[derive(Drop)]
struct Memory;

impl Memory {
    // The bytes of the buffer for standard input: a sheet, and as many blocks as the longest bundle has.
    const BUFFER: usize = Block::SIZE + Block::SIZE * Block::MOST;
}

// The text for the bytes of a sheet and a bundle.
fn list(input: &[u8], text: &mut [u8]) -> Result<usize, Refusal<u16>>
    ensures { HoldersPromise (bundle_of input.now) (sheet_of input.now) text.old text.new result }
{
    let start = bundle_start(Block::SIZE, input.len());
    holder_lines::list(&input[start..], &input[..start], text)
}

// What is said of these bytes, and rightly with room enough for the text.
fn listing_for(input: &[u8], text: &mut [u8]) -> Listing
    ensures { holders_bytes ≤ length text.old
        → ListsAllowed text.new result (Prints input.now) × Holds result.problem [] }
{
    let listed = list(input, text);
    listing_of(listed)
}

// The program, as one of those that answer with a list.
struct App;

impl ListProgram for App {
    ghost prints = { Prints };

    ghost unreadable = { unreadable };

    ghost least_buffer = { longest_input };

    ghost least_text = { holders_bytes };

    fn listing_for(&self, input: &[u8], text: &mut [u8]) -> Listing {
        listing_for(input, text)
    }

    fn longer(&self, buffer: &[u8], text: &mut [u8]) -> Listing {
        Listing {
            length: 0,
            line: refusal(1, 0),
            problem: empty(),
        }
    }

    fn problem(&self) -> Text {
        message(b"holders: standard input cannot be read to its end\n")
    }
}

// Writes what is rightly said of the buffer.
fn write<O: Write, E: Write>(
    stdout: &mut O,
    stderr: &mut E,
    listing: Listing,
    got: Result<Input, Failed>,
    buffer: &[u8],
    text: &[u8],
)
    requires { RightlyListed Prints unreadable got buffer.now text.now listing }
{
    write_listing(stdout, stderr, listing, text);
}

// The program, over any reader and writers.
fn run<I: Read, O: Write, E: Write>(stdin: &mut I, stdout: &mut O, stderr: &mut E) {
    let mut buffer = [0u8; Memory::BUFFER];
    let got = fill(stdin, &mut buffer);
    let mut text = [0u8; Room::BYTES];
    let listing = say(&App, got, &buffer, &mut text);
    write(stdout, stderr, listing, got, &buffer, &text);
}

fn main(rt: HostRuntime) {
    run(&mut rt.stdin(), &mut rt.stdout(), &mut rt.stderr());
}
