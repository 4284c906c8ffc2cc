// What is said of every record of a bundle by a sheet, as text: a line for each record in their order, and a last line with the two counts,
// written in one pass into lent memory.
#![tactic(auto)]

ghost use Rattle.bundle.specs.Rows.{Accepts};
ghost use Rattle.holder_lines.specs.Promise.{HoldersPromise};

use crate::whole::write_lines;
use base::refusal::{Cause, Refusal};
use bundle::read::{Sizes, read};
use sheet::right;
use words::table::Table;

pub mod line;
pub mod whole;

// How many bytes are to be lent for a text.
#[derive(Drop)]
pub struct Room;

impl Room {
    // The most records of a bundle.
    pub const RECORDS: usize = 240;

    // A record's number, ` WELL`, a space and a number for each shelf, and a newline.
    const LINE: usize = 3 + 5 + 3 * Table::ENTITIES + 1;

    // `END`, two counts with a space before each, and a newline.
    const END_LINE: usize = 4 + 5 + 1 + 5 + 1;

    // A line for each record, and the last one.
    pub const BYTES: usize = Room::RECORDS * Room::LINE + Room::END_LINE;
}

// The text of an accepted bundle, or 15, or 8.
fn list_accepted(
    bundle: &[u8],
    sheet: &[u8],
    sizes: Sizes,
    text: &mut [u8],
) -> Result<usize, Refusal<u16>>
    requires { Accepts bundle.now sizes }
    ensures { HoldersPromise bundle.now sheet.now text.old text.new result }
{
    if !right(sheet, sizes.names) {
        return Err(Cause::Sheet.at(0));
    }
    if text.len() < Room::BYTES {
        return Err(Cause::Memory.at(0));
    }
    Ok(write_lines(bundle, sheet, sizes.records, text))
}

// What is said of every record, in all lent bytes.
pub fn list(bundle: &[u8], sheet: &[u8], text: &mut [u8]) -> Result<usize, Refusal<u16>>
    ensures { HoldersPromise bundle.now sheet.now text.old text.new result }
{
    let sizes = read(bundle)?;
    list_accepted(bundle, sheet, sizes, text)
}
