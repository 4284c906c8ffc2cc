// The program `read_bundle`: what the bundle reader answers to the bytes of standard input, as one line, `ACCEPTED E R N`
// or `REFUSED number place`. The tests hold the reader to stored bundles with it.
//
// Its buffer has room for the longest bundle. So input that is longer than the buffer is refused for its length, and never cut to a
// bundle. Where standard input cannot be read to its end it prints no answer, but a message on standard error.
#![tactic(auto)]

ghost use Rattle.bundle.specs.Rows.{Accepts};
ghost use Rattle.said.specs.Said.{HoldsAllowed, Rightly};
ghost use Rattle.bundle.specs.Layout.{longest_bundle};
ghost use Rattle.read_bundle.specs.Prints.{Prints, unreadable};
ghost use Rattle.read_bundle.specs.Longer.{prints_longer};

use answers::line::{Text, accepted, message, refusal};
use bundle::read::{Sizes, read};
use input::{Failed, Input, fill};
use said::{Program, Said, say, write_text};
use std::io::{Read, Write};

// The memory of the program.
#[derive(Drop)]
struct Memory;

impl Memory {
    // The bytes of the buffer for standard input.
    const BUFFER: usize = 4096;
}

// The line of an accepted bundle: each of its sizes is below 256.
fn line_of(input: &[u8], sizes: Sizes) -> Text
    requires { Accepts input.now sizes }
    ensures { HoldsAllowed (Prints input.now) result }
{
    let entities = sizes.entities as u8;
    let names = sizes.names as u8;
    let records = sizes.records as u8;
    accepted(entities, names, records)
}

// The line of the reader's answer to these bytes.
fn line_for(input: &[u8]) -> Text
    ensures { HoldsAllowed (Prints input.now) result }
{
    match read(input) {
        Ok(sizes) => line_of(input, sizes),
        Err(refused) => refusal(refused.number, refused.place),
    }
}

// The program, as one of those that answer with one text.
struct App;

impl Program for App {
    ghost prints = { Prints };

    ghost unreadable = { unreadable };

    ghost longest = { longest_bundle };

    fn line_for(&self, input: &[u8]) -> Text {
        line_for(input)
    }

    fn longer(&self) -> Text {
        refusal(1, 0)
    }

    fn problem(&self) -> Text {
        message(b"read_bundle: standard input cannot be read to its end\n")
    }

    ghost prints_longer = { prints_longer };
}

// Writes what is rightly said of the buffer.
fn write<O: Write, E: Write>(
    stdout: &mut O,
    stderr: &mut E,
    said: Said,
    got: Result<Input, Failed>,
    buffer: &[u8],
)
    requires { Rightly Prints unreadable got buffer.now said }
{
    write_text(stdout, said.out);
    write_text(stderr, said.problem);
}

// The program, over any reader and writers.
fn run<I: Read, O: Write, E: Write>(stdin: &mut I, stdout: &mut O, stderr: &mut E) {
    let mut buffer = [0u8; Memory::BUFFER];
    let got = fill(stdin, &mut buffer);
    let said = say(&App, got, &buffer);
    write(stdout, stderr, said, got, &buffer);
}

fn main(rt: HostRuntime) {
    run(&mut rt.stdin(), &mut rt.stdout(), &mut rt.stderr());
}
