// A bundle's marks and records, by number, for the crates above. Whatever is out of range has an answer too.
ghost use Rattle.std.specs.Prelude.{◌≡◌, ◌+◌, ◌≤◌, length, take, drop};
ghost use Rattle.records.specs.Form.{record_in};
ghost use Rattle.bundle.specs.Access.{mark_of, record_of};

use base::{byte, outside};
use block::{Block, RecordPlace};
use records::form::{Record, record_of};

// The mark of a shelf.
#[derive(Clone, Copy)]
pub enum Mark {
    Present,
    Absent,
}

// The mark of a shelf, counted from 1, where it has one.
pub fn mark_at(bundle: &[u8], shelf: usize) -> Option<Mark>
    ensures { result ≡ mark_of bundle.now shelf }
{
    if outside(32, shelf) {
        return None;
    }
    match byte(bundle, 3 + shelf) {
        1 => Some(Mark::Present),
        2 => Some(Mark::Absent),
        _ => None,
    }
}

// The record whose twelve bytes start at a byte of a block.
fn record_in(bytes: &[u8], start: usize) -> Option<Record>
    requires { start + 12 ≤ length bytes.now }
    ensures { result ≡ record_in (take 12 (drop start bytes.now)) }
{
    let end = start + Block::RECORD_SIZE;
    record_of(&bytes[start..end])
}

// Record number n of a bundle, counted from 1, where it has one.
pub fn record_at(bundle: &[u8], n: usize) -> Option<Record>
    ensures { result ≡ record_of bundle.now n }
{
    if outside(240, n) {
        return None;
    }
    let place = RecordPlace::after(n - 1);
    let k = place.block;
    let start = Block::SIZE * k;
    let end = start + Block::SIZE;
    if bundle.len() < end {
        return None;
    }
    record_in(&bundle[start..end], place.start)
}
