// The shelves that must hold a record, one bit a shelf: that of its issuer, and those of its subjects.
ghost use Rattle.std.specs.Prelude.{◌≡◌};
ghost use Rattle.rt0.specs.Word.{pick_word};
ghost use Rattle.records.specs.Form.{credential_of};
ghost use Rattle.sheet.specs.Types.{types_by};
ghost use Rattle.storage.specs.Stored.{subjects_for, shelves_for};

use crate::typing::sides_of;
use records::form::{Record, head_of};
use words::give::single;

// A word where the test holds, and nobody where it does not.
fn held_if(test: bool, word: u32) -> u32
    ensures { result ≡ pick_word test word 0 }
{
    if test { word } else { 0 }
}

// The subjects of a record.
fn subjects(kept: Option<Record>) -> u32
    ensures { result ≡ subjects_for (credential_of kept) }
{
    let Some(kept) = kept else {
        return 0;
    };
    match kept {
        Record::Entity { head: _, entity } => single(entity),
        Record::Role { head: _, role } => single(role.entity),
        Record::Link {
            head,
            first: _,
            second: _,
        } => single(head.entity),
        Record::TwoParts { head: _, one, two } => single(one.entity) | single(two.entity),
        Record::ThreeParts {
            head: _,
            one,
            two,
            three,
        } => single(one.entity) | (single(two.entity) | single(three.entity)),
    }
}

// The shelves that must hold a record.
pub(crate) fn shelves(sheet: &[u8], kept: Option<Record>) -> u32
    ensures { result ≡ shelves_for (types_by sheet.now) (credential_of kept) }
{
    let Some(head) = head_of(kept) else {
        return 0;
    };
    let name = sides_of(sheet, head.name);
    held_if(name.def | name.all, single(head.entity)) | held_if(name.subject, subjects(kept))
}
