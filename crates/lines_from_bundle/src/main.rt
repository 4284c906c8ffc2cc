// The program `lines_from_bundle`: a bundle from standard input, and its credentials as lines of text, or the line of the reader's refusal.
//
// Its buffer has room for the longest bundle. So input that is longer than the buffer is refused for its length, and never cut to a
// bundle. Where standard input cannot be read to its end it prints no line, but a message on standard error.
#![tactic(auto)]

ghost use Rattle.std.specs.Prelude.{◌+◌, ◌*◌, ◌≤◌, length, take, drop, []};
ghost use Rattle.block.specs.Block.{block_of};
ghost use Rattle.bundle.specs.Layout.{longest_bundle, blocks_for, record_bytes};
ghost use Rattle.bundle.specs.Rows.{reader_rows, Accepts};
ghost use Rattle.text.specs.Written.{Wrote as WroteFrom};
ghost use Rattle.letters.specs.Promise.{Writes};
ghost use Rattle.answers.specs.Line.{Holds};
ghost use Rattle.listed.specs.Listing.{ListsAllowed, RightlyListed};
ghost use Rattle.desk.specs.Answer.{Gives};
ghost use Rattle.lines_from_bundle.specs.Gathered.{gathered};
ghost use Rattle.lines_from_bundle.specs.Prints.{LinesFrom, Prints, unreadable};

use answers::line::{Text, empty, message, refusal};
use base::refusal::Refusal;
use block::{Block, RecordPlace};
use bundle::read::{Sizes, read};
use desk::listing_of;
use input::{Failed, Input, fill};
use letters::write::write_lines;
use listed::{ListProgram, Listing, say, write_listing};
use std::io::{Read, Write};
use text::word;

// The memory of the program.
#[derive(Drop)]
struct Memory;

impl Memory {
    // The bytes of the buffer for standard input.
    const BUFFER: usize = 4096;

    // The bytes of 240 records.
    const RECORDS: usize = 2880;

    // The bytes of 240 lines of 39.
    const TEXT: usize = 9360;
}

// Stores the record whose twelve bytes start at a byte of a block.
fn put_part(records: &mut [u8], at: usize, bytes: &[u8], start: usize) -> usize
    requires { start + 12 ≤ length bytes.now }
    ensures { WroteFrom records.old at (take 12 (drop start bytes.now)) records.new result }
{
    let end = start + Block::RECORD_SIZE;
    word(records, at, &bytes[start..end])
}

// Stores the record of a bundle that has so many before it.
fn put_record(records: &mut [u8], at: usize, bundle: &[u8], i: usize) -> usize
    requires { 512 * block_of i + 512 ≤ length bundle.now }
    ensures { WroteFrom records.old at (record_bytes bundle.now i) records.new result }
{
    let place = RecordPlace::after(i);
    let k = place.block;
    let start = Block::SIZE * k;
    let end = start + Block::SIZE;
    put_part(records, at, &bundle[start..end], place.start)
}

// Stores so many records of a bundle one behind the other.
fn gather(records: &mut [u8], bundle: &[u8], count: usize) -> usize
    requires { 512 * blocks_for count ≤ length bundle.now }
    ensures { WroteFrom records.old 0 (gathered bundle.now count) records.new result }
{
    let mut at: usize = 0;
    for i in 0..count {
        at = put_record(records, at, bundle, i);
    }
    at
}

// The lines of the first bytes of a list of records.
fn write_front(
    entities: u8,
    names: u8,
    records: &[u8],
    n: usize,
    text: &mut [u8],
) -> Result<usize, Refusal<usize>>
    requires { n ≤ length records.now }
    ensures { Writes entities names (take n records.now) text.old result text.new }
{
    write_lines(entities, names, &records[..n], text)
}

// The lines of an accepted bundle.
fn from_records(
    bundle: &[u8],
    sizes: Sizes,
    records: &mut [u8],
    text: &mut [u8],
) -> Result<usize, Refusal<usize>>
    requires { Accepts bundle.now sizes × (2880 ≤ length records.old) }
    ensures { 9360 ≤ length text.old
        → Gives (reader_rows bundle.now) (LinesFrom bundle.now) text.new result }
{
    let entities = sizes.entities as u8;
    let names = sizes.names as u8;
    let n = gather(records, bundle, sizes.records);
    write_front(entities, names, records, n, text)
}

// The lines of a bundle.
fn from_bundle(bundle: &[u8], records: &mut [u8], text: &mut [u8]) -> Result<usize, Refusal<usize>>
    requires { 2880 ≤ length records.old }
    ensures { 9360 ≤ length text.old
        → Gives (reader_rows bundle.now) (LinesFrom bundle.now) text.new result }
{
    let sizes = read(bundle)?;
    from_records(bundle, sizes, records, text)
}

// What is said of these bytes, and rightly with room enough for the text.
fn listing_for(bundle: &[u8], text: &mut [u8]) -> Listing
    ensures { 9360 ≤ length text.old
        → ListsAllowed text.new result (Prints bundle.now) × Holds result.problem [] }
{
    let mut records = [0u8; Memory::RECORDS];
    let wrote = from_bundle(bundle, &mut records, text);
    listing_of(wrote)
}

// The program, as one of those that answer with a list.
struct App;

impl ListProgram for App {
    ghost prints = { Prints };

    ghost unreadable = { unreadable };

    ghost least_buffer = { longest_bundle };

    ghost least_text = { 9360 };

    fn listing_for(&self, input: &[u8], text: &mut [u8]) -> Listing {
        listing_for(input, text)
    }

    fn longer(&self, buffer: &[u8], text: &mut [u8]) -> Listing {
        Listing {
            length: 0,
            line: refusal(1, 0),
            problem: empty(),
        }
    }

    fn problem(&self) -> Text {
        message(b"lines_from_bundle: standard input cannot be read to its end\n")
    }
}

// Writes what is rightly said of the buffer.
fn write<O: Write, E: Write>(
    stdout: &mut O,
    stderr: &mut E,
    listing: Listing,
    got: Result<Input, Failed>,
    buffer: &[u8],
    text: &[u8],
)
    requires { RightlyListed Prints unreadable got buffer.now text.now listing }
{
    write_listing(stdout, stderr, listing, text);
}

// The program, over any reader and writers.
fn run<I: Read, O: Write, E: Write>(stdin: &mut I, stdout: &mut O, stderr: &mut E) {
    let mut buffer = [0u8; Memory::BUFFER];
    let got = fill(stdin, &mut buffer);
    let mut text = [0u8; Memory::TEXT];
    let listing = say(&App, got, &buffer, &mut text);
    write(stdout, stderr, listing, got, &buffer, &text);
}

fn main(rt: HostRuntime) {
    run(&mut rt.stdin(), &mut rt.stdout(), &mut rt.stderr());
}
