// The program `bundle_from_lines`: E, R, a mark for each of the 32 shelves and then lines of text from standard input, and the bytes of the
// bundle as the answer, or the line of a refusal.
//
// Its buffer has room for the longest text and one byte more. So input that is longer than the buffer has a wrong line there or one behind
// line 240, and is answered by what stands in the buffer. Where standard input cannot be read to its end it prints no bundle, but a message
// on standard error.
#![tactic(auto)]

ghost use Rattle.std.specs.Prelude.{◌+◌, ◌≤◌, length, take, []};
ghost use Rattle.answers.specs.Line.{Holds};
ghost use Rattle.writer.specs.Rows.{HeadWrong};
ghost use Rattle.writer.specs.Promise.{Writes};
ghost use Rattle.listed.specs.Listing.{ListsAllowed, RightlyListed};
ghost use Rattle.desk.specs.Answer.{Gives};
ghost use Rattle.bundle_from_lines.specs.Input.{longest_input};
ghost use Rattle.bundle_from_lines.specs.Prints.{text_rows, head_rows, bundle_rows, BundleOf, BundleFrom, Prints, unreadable};

use answers::line::{Text, message};
use base::byte;
use base::refusal::{Cause, Refusal};
use desk::listing_of;
use input::{Failed, Input, fill};
use letters::read::read_lines;
use listed::{ListProgram, Listing, say, write_listing};
use std::io::{Read, Write};

// The bytes before the text.
#[derive(Drop)]
struct Head;

impl Head {
    // E and R, which stand before the marks.
    const SIZES: usize = 2;

    // E, R and the marks.
    const BYTES: usize = 34;
}

// The memory of the program.
#[derive(Drop)]
struct Memory;

impl Memory {
    // The bytes of the buffer for standard input.
    const BUFFER: usize = 9395;

    // The bytes of 240 records.
    const RECORDS: usize = 2880;

    // The bytes of the longest bundle.
    const BUNDLE: usize = 3584;
}

// The bundle of the first bytes of a list of records.
fn write_front(
    entities: u8,
    names: u8,
    marks: &[u8],
    records: &[u8],
    n: usize,
    bundle: &mut [u8],
) -> Result<usize, Refusal<usize>>
    requires { n ≤ length records.now }
    ensures { Writes entities names marks.now (take n records.now) bundle.old result bundle.new }
{
    writer::write::write(entities, names, marks, &records[..n], bundle)
}

// The bundle of a text, where E, R and the marks are right.
fn from_text(
    entities: u8,
    names: u8,
    marks: &[u8],
    text: &[u8],
    records: &mut [u8],
    bundle: &mut [u8],
) -> Result<usize, Refusal<usize>>
    requires { (HeadWrong entities names marks.now → ⊥) × (2880 ≤ length records.old) }
    ensures { 3584 ≤ length bundle.old
        → Gives (text_rows entities names text.now) (BundleOf entities names marks.now text.now)
        bundle.new result }
{
    let n = read_lines(entities, names, text, records)?;
    write_front(entities, names, marks, records, n, bundle)
}

// The bundle of a text. Whether E, R and the marks are right is told by the writer, from a list without a record.
fn from_head(
    entities: u8,
    names: u8,
    marks: &[u8],
    text: &[u8],
    records: &mut [u8],
    bundle: &mut [u8],
) -> Result<usize, Refusal<usize>>
    requires { 2880 ≤ length records.old }
    ensures { 3584 ≤ length bundle.old
        → Gives (head_rows entities names marks.now text.now)
        (BundleOf entities names marks.now text.now) bundle.new result }
{
    writer::write::write(entities, names, marks, b"", bundle)?;
    from_text(entities, names, marks, text, records, bundle)
}

// The bundle from the bytes of standard input.
fn from_input(input: &[u8], records: &mut [u8], bundle: &mut [u8]) -> Result<usize, Refusal<usize>>
    requires { 2880 ≤ length records.old }
    ensures { 3584 ≤ length bundle.old
        → Gives (bundle_rows input.now) (BundleFrom input.now) bundle.new result }
{
    if input.len() < Head::BYTES {
        return Err(Cause::Layout.at(0));
    }
    let entities = byte(input, 0) as u8;
    let names = byte(input, 1) as u8;
    let start = Head::SIZES;
    let end = Head::BYTES;
    from_head(
        entities,
        names,
        &input[start..end],
        &input[end..],
        records,
        bundle,
    )
}

// What is said of these bytes, and rightly with room enough for the bundle.
fn listing_for(input: &[u8], bundle: &mut [u8]) -> Listing
    ensures { 3584 ≤ length bundle.old
        → ListsAllowed bundle.new result (Prints input.now) × Holds result.problem [] }
{
    let mut records = [0u8; Memory::RECORDS];
    let wrote = from_input(input, &mut records, bundle);
    listing_of(wrote)
}

// The program, as one of those that answer with a list.
struct App;

impl ListProgram for App {
    ghost prints = { Prints };

    ghost unreadable = { unreadable };

    ghost least_buffer = { longest_input + 1 };

    ghost least_text = { 3584 };

    fn listing_for(&self, input: &[u8], text: &mut [u8]) -> Listing {
        listing_for(input, text)
    }

    // What the buffer holds is answered, and is the answer to every input that goes on behind it.
    fn longer(&self, buffer: &[u8], text: &mut [u8]) -> Listing {
        listing_for(buffer, text)
    }

    fn problem(&self) -> Text {
        message(b"bundle_from_lines: standard input cannot be read to its end\n")
    }
}

// Writes what is rightly said of the buffer.
fn write<O: Write, E: Write>(
    stdout: &mut O,
    stderr: &mut E,
    listing: Listing,
    got: Result<Input, Failed>,
    buffer: &[u8],
    bundle: &[u8],
)
    requires { RightlyListed Prints unreadable got buffer.now bundle.now listing }
{
    write_listing(stdout, stderr, listing, bundle);
}

// The program, over any reader and writers.
fn run<I: Read, O: Write, E: Write>(stdin: &mut I, stdout: &mut O, stderr: &mut E) {
    let mut buffer = [0u8; Memory::BUFFER];
    let got = fill(stdin, &mut buffer);
    let mut bundle = [0u8; Memory::BUNDLE];
    let listing = say(&App, got, &buffer, &mut bundle);
    write(stdout, stderr, listing, got, &buffer, &bundle);
}

fn main(rt: HostRuntime) {
    run(&mut rt.stdin(), &mut rt.stdout(), &mut rt.stderr());
}
