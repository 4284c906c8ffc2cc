// Storage types of the records of a bundle: whether a record is structurally well typed by a sheet, and which shelves must hold it.
#![tactic(auto)]

ghost use Rattle.std.specs.Prelude.{◌≡◌};
ghost use Rattle.records.specs.Form.{credential_of};
ghost use Rattle.bundle.specs.Access.{record_of};
ghost use Rattle.sheet.specs.Types.{types_by};
ghost use Rattle.storage.specs.Stored.{stored_for};
ghost use Rattle.storage.specs.Promise.{StoragePromise};

use crate::shelves::shelves;
use crate::typing::structurally;
use base::outside;
use base::refusal::{Cause, Refusal};
use bundle::access::record_at;
use bundle::read::read;
use sheet::right;

pub mod shelves;
pub mod typing;

// The shelves that must hold record number n of a bundle, counted from 1, by a sheet, where it is structurally well typed: A is bit A − 1.
// Whatever their bytes are.
pub fn stored(bundle: &[u8], sheet: &[u8], n: usize) -> Option<u32>
    ensures { result ≡ stored_for (types_by sheet.now) (credential_of (record_of bundle.now n)) }
{
    let kept = record_at(bundle, n);
    if structurally(sheet, kept) {
        return Some(shelves(sheet, kept));
    }
    None
}

// The answer to every bundle, sheet and number of a record: the reader's refusal, 15 for a sheet that is not right, or 7 where there is no
// such record; or else the shelves that must hold it, where it is structurally well typed.
pub fn holders(bundle: &[u8], sheet: &[u8], number: u8) -> Result<Option<u32>, Refusal<u16>>
    ensures { StoragePromise bundle.now sheet.now number result }
{
    let sizes = read(bundle)?;
    let n = number as usize;
    let sheet_right = right(sheet, sizes.names);
    let no_record = outside(sizes.records, n);
    if !sheet_right {
        return Err(Cause::Sheet.at(0));
    }
    if no_record {
        return Err(Cause::Question.at(0));
    }
    Ok(stored(bundle, sheet, n))
}
