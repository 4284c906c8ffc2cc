// The library for C: the search and the tables, without and with a sheet, the check, the writer, letters and the holders of a record under
// plain names, each with one packed number as its answer.
// include/portertrunk.h says in words what is lent and what comes back.
#![tactic(auto)]

ghost use Rattle.bundle.specs.Question.{question};
ghost use Rattle.search.specs.Promise.{Promise, lent};
ghost use Rattle.tables.specs.Promise.{TablesPromise, tables};
ghost use Rattle.with_sheet.specs.Promise.{SheetTables, SheetSearch};
ghost use Rattle.capi.specs.Packed.{PackedPromise, PackedTables, PackedCheck};
ghost use Rattle.capi.specs.Written.{PackedWrite, PackedAppend, PackedReadLines, PackedWriteLines};
ghost use Rattle.capi.specs.Holders.{PackedHolders};

use crate::pack::{pack_filled, pack_storage, pack_wrote};
use answers::pack::{pack, pack_answer};
use bundle::question::Question;
use checker::check::check;
use letters::read::read_lines;
use letters::write::write_lines;
use search::search;
use storage::holders;
use tables::fill;
use with_sheet::{fill_with_sheet, search_with_sheet};
use writer::append::append;
use writer::write::write;

mod pack;

// The packed answer of the search.
#[unsafe(no_mangle)]
pub extern "C" fn portertrunk_search(
    bundle: &[u8],
    d: u8,
    a: u8,
    r: u8,
    sure: &mut [u32],
    possible: &mut [u32],
    slip: &mut [u8],
) -> u64
    ensures { PackedPromise (Promise bundle.now (question d a r)
        (lent sure.old possible.old slip.old)
        (lent sure.new possible.new slip.new)) result }
{
    pack_answer(search(bundle, d, a, r, sure, possible, slip))
}

// The packed answer of the tables.
#[unsafe(no_mangle)]
pub extern "C" fn portertrunk_tables(bundle: &[u8], sure: &mut [u32], possible: &mut [u32]) -> u64
    ensures { PackedTables (TablesPromise bundle.now (tables sure.old possible.old)
        (tables sure.new possible.new)) result }
{
    pack_filled(fill(bundle, sure, possible))
}

// The packed answer of the search with a sheet.
#[unsafe(no_mangle)]
pub extern "C" fn portertrunk_search_with_sheet(
    bundle: &[u8],
    sheet: &[u8],
    d: u8,
    a: u8,
    r: u8,
    sure: &mut [u32],
    possible: &mut [u32],
    slip: &mut [u8],
) -> u64
    ensures { PackedPromise (SheetSearch bundle.now sheet.now (question d a r)
        (lent sure.old possible.old slip.old)
        (lent sure.new possible.new slip.new)) result }
{
    let question = Question {
        person: d as usize,
        entity: a as usize,
        name: r as usize,
    };
    pack_answer(search_with_sheet(bundle, sheet, question, sure, possible, slip))
}

// The packed answer of the tables with a sheet.
#[unsafe(no_mangle)]
pub extern "C" fn portertrunk_tables_with_sheet(
    bundle: &[u8],
    sheet: &[u8],
    sure: &mut [u32],
    possible: &mut [u32],
) -> u64
    ensures { PackedTables (SheetTables bundle.now sheet.now (tables sure.old possible.old)
        (tables sure.new possible.new)) result }
{
    pack_filled(fill_with_sheet(bundle, sheet, sure, possible))
}

// The packed answer of the check.
#[unsafe(no_mangle)]
pub extern "C" fn portertrunk_check(bundle: &[u8], d: u8, a: u8, r: u8, slip: &[u8]) -> u64
    ensures { PackedCheck bundle.now (question d a r) slip.now result }
{
    match check(bundle, d, a, r, slip) {
        Ok(lines) => pack(0, 0, 0, 0, lines),
        Err(refused) => pack(refused.number, refused.place, 0, 0, 0),
    }
}

// The packed answer to a write.
#[unsafe(no_mangle)]
pub extern "C" fn portertrunk_write(
    entities: u8,
    names: u8,
    marks: &[u8],
    records: &[u8],
    bundle: &mut [u8],
) -> u64
    ensures { PackedWrite entities names marks.now records.now bundle.old bundle.new result }
{
    pack_wrote(write(entities, names, marks, records, bundle))
}

// The packed answer to an append.
#[unsafe(no_mangle)]
pub extern "C" fn portertrunk_append(bundle: &mut [u8], length: usize, record: &[u8]) -> u64
    ensures { PackedAppend bundle.old length «record».now bundle.new result }
{
    pack_wrote(append(bundle, length, record))
}

// The packed answer to reading a letter.
#[unsafe(no_mangle)]
pub extern "C" fn portertrunk_read_lines(
    entities: u8,
    names: u8,
    text: &[u8],
    records: &mut [u8],
) -> u64
    ensures { PackedReadLines entities names text.now records.old records.new result }
{
    pack_wrote(read_lines(entities, names, text, records))
}

// The packed answer to writing one.
#[unsafe(no_mangle)]
pub extern "C" fn portertrunk_write_lines(
    entities: u8,
    names: u8,
    records: &[u8],
    text: &mut [u8],
) -> u64
    ensures { PackedWriteLines entities names records.now text.old text.new result }
{
    pack_wrote(write_lines(entities, names, records, text))
}

// The packed answer to who must hold a record.
#[unsafe(no_mangle)]
pub extern "C" fn portertrunk_holders(bundle: &[u8], sheet: &[u8], record: u8) -> u64
    ensures { PackedHolders bundle.now sheet.now «record» result }
{
    pack_storage(holders(bundle, sheet, record))
}
