// The program `members`: one question from standard input, two bytes and then a bundle, and the list of the members of a role as the answer.
//
// Its buffer has room for the longest question. So input that is longer than the buffer is refused for its length, and never cut to a
// question. Where standard input cannot be read to its end it prints no list, but a message on standard error.
#![tactic(auto)]

ghost use Rattle.std.specs.Prelude.{◌≤◌, length, []};
ghost use Rattle.answers.specs.Line.{Holds};
ghost use Rattle.lines.specs.Sizes.{members_bytes};
ghost use Rattle.lists.specs.Promise.{MembersPromise};
ghost use Rattle.listed.specs.Listing.{ListsAllowed, RightlyListed};
ghost use Rattle.members.specs.Input.{longest_input, bundle_of, role_of};
ghost use Rattle.members.specs.Prints.{Prints, unreadable};

use answers::line::{Text, empty, message, refusal};
use asked::bundle_start;
use base::byte;
use base::refusal::Refusal;
use input::{Failed, Input, fill};
use lines::Room;
use listed::{ListProgram, Listing, listing_of, say, write_listing};
use lists::members;
use std::io::{Read, Write};

// The bytes of a question before its bundle: the entity and the role name.
#[derive(Drop)]
struct Question;

impl Question {
    const BYTES: usize = 2;
}

// The memory of the program.
#[derive(Drop)]
struct Memory;

impl Memory {
    // The bytes of the buffer for standard input.
    const BUFFER: usize = 4096;
}

// The list for the bytes of a question: the entity, the role name, then the bundle.
fn list(input: &[u8], text: &mut [u8]) -> Result<usize, Refusal<u16>>
    ensures { MembersPromise (bundle_of input.now) (role_of input.now) text.old text.new result }
{
    let a = byte(input, 0) as u8;
    let r = byte(input, 1) as u8;
    let start = bundle_start(Question::BYTES, input.len());
    members(&input[start..], a, r, text)
}

// What is said of these bytes, and rightly with room enough for the list.
fn listing_for(input: &[u8], text: &mut [u8]) -> Listing
    ensures { members_bytes ≤ length text.old
        → ListsAllowed text.new result (Prints input.now) × Holds result.problem [] }
{
    let listed = list(input, text);
    listing_of(listed)
}

// The program, as one of those that answer with a list.
struct App;

impl ListProgram for App {
    ghost prints = { Prints };

    ghost unreadable = { unreadable };

    ghost least_buffer = { longest_input };

    ghost least_text = { members_bytes };

    fn listing_for(&self, input: &[u8], text: &mut [u8]) -> Listing {
        listing_for(input, text)
    }

    fn longer(&self, buffer: &[u8], text: &mut [u8]) -> Listing {
        Listing {
            length: 0,
            line: refusal(1, 0),
            problem: empty(),
        }
    }

    fn problem(&self) -> Text {
        message(b"members: standard input cannot be read to its end\n")
    }
}

// Writes what is rightly said of the buffer.
fn write<O: Write, E: Write>(
    stdout: &mut O,
    stderr: &mut E,
    listing: Listing,
    got: Result<Input, Failed>,
    buffer: &[u8],
    text: &[u8],
)
    requires { RightlyListed Prints unreadable got buffer.now text.now listing }
{
    write_listing(stdout, stderr, listing, text);
}

// The program, over any reader and writers.
fn run<I: Read, O: Write, E: Write>(stdin: &mut I, stdout: &mut O, stderr: &mut E) {
    let mut buffer = [0u8; Memory::BUFFER];
    let got = fill(stdin, &mut buffer);
    let mut text = [0u8; Room::MEMBERS];
    let listing = say(&App, got, &buffer, &mut text);
    write(stdout, stderr, listing, got, &buffer, &text);
}

fn main(rt: HostRuntime) {
    run(&mut rt.stdin(), &mut rt.stdout(), &mut rt.stderr());
}
