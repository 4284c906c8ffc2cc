// Whether a record is structurally well typed by a sheet: the types of its names, of its body, and the three conditions.
ghost use Rattle.std.specs.Prelude.{◌≡◌};
ghost use Rattle.records.specs.Form.{credential_of};
ghost use Rattle.types.specs.Flags.{name_traces};
ghost use Rattle.sheet.specs.Types.{types_by};
ghost use Rattle.storage.specs.Stored.{sides_of, body_for, structurally_for};

use records::form::{Record, head_of};
use sheet::code_of;
use types::{Traces, both, link, three_conditions};

// The two sides of a name's type.
#[derive(Clone, Copy)]
pub struct Sides {
    // The issuer side is issuer-traces-all.
    pub all: bool,
    // The issuer side is issuer-traces-def.
    pub def: bool,
    // The subject side is subject-traces-all.
    pub subject: bool,
}

// The sides of a name by its code on a sheet.
pub(crate) fn sides_of(sheet: &[u8], name: usize) -> Sides
    ensures { result ≡ sides_of (types_by sheet.now name) }
{
    let code = code_of(sheet, name);
    Sides {
        all: (code == 5) | (code == 6),
        def: (code == 3) | (code == 4),
        subject: (code == 2) | (code == 4) | (code == 6),
    }
}

// The type of a name.
fn traces(sheet: &[u8], name: usize) -> Traces
    ensures { result ≡ name_traces (types_by sheet.now name) }
{
    let name = sides_of(sheet, name);
    Traces {
        issuer: name.all,
        subject: name.subject,
        weakly: name.def & !name.subject,
    }
}

// The type of a record's body.
fn body(sheet: &[u8], kept: Option<Record>) -> Traces
    ensures { result ≡ body_for (types_by sheet.now) (credential_of kept) }
{
    let Some(kept) = kept else {
        return Traces {
            issuer: false,
            subject: false,
            weakly: false,
        };
    };
    match kept {
        Record::Entity { head: _, entity: _ } => Traces {
            issuer: true,
            subject: true,
            weakly: false,
        },
        Record::Role { head: _, role } => traces(sheet, role.name),
        Record::Link {
            head: _,
            first,
            second,
        } => link(traces(sheet, first), traces(sheet, second)),
        Record::TwoParts { head: _, one, two } => {
            both(traces(sheet, one.name), traces(sheet, two.name))
        }
        Record::ThreeParts {
            head: _,
            one,
            two,
            three,
        } => {
            let others = both(traces(sheet, two.name), traces(sheet, three.name));
            both(traces(sheet, one.name), others)
        }
    }
}

// Whether a record is structurally well typed.
pub(crate) fn structurally(sheet: &[u8], kept: Option<Record>) -> bool
    ensures { result ≡ structurally_for (types_by sheet.now) (credential_of kept) }
{
    let Some(head) = head_of(kept) else {
        return false;
    };
    three_conditions(traces(sheet, head.name), body(sheet, kept))
}
