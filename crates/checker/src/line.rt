// A line of a slip and its premises, over an accepted bundle. Lines are counted here from 0, as bytes are, and premises name them from 1.
ghost use Rattle.std.specs.Prelude.{◌≡◌, ◌*◌, ◌<◌, ◌≤◌, [], ◌∷◌};
ghost use Rattle.std.proofs.Math.ListN.{get_elem?};
ghost use Rattle.std.proofs.Props.{props};
ghost use Rattle.rt0.specs.Credential.{◌·◌};
ghost use Rattle.rt0.specs.Book.{item};
ghost use Rattle.rt0.specs.Slip.{◌∋◌, stated as stated_of};
ghost use Rattle.rt0.specs.Bytes.{line_from, lines_of};
ghost use Rattle.rt0.specs.Sizes.{slip_lines};
ghost use Rattle.records.specs.Form.{credential_of};
ghost use Rattle.bundle.specs.Rows.{Accepts};
ghost use Rattle.bundle.specs.Held.{book_in};
ghost use Rattle.checker.specs.Premise.{useless as useless_of, premise_of, wanted_at, premise_wrong_at};
ghost use Rattle.checker.specs.Claim.{fact_in};

use crate::claim::{Claim, member_of, pick, same, stated_by};
use base::{byte, outside};
use bundle::access::record_at;
use bundle::read::Sizes;
use records::form::{Record, Role};

// The sizes and places of a slip's lines.
#[derive(Drop)]
pub struct Line;

impl Line {
    pub const SIZE: usize = 8;

    pub const PREMISES: usize = 3;
}

// Premise j of line i.
pub(crate) fn premise(slip: &[u8], i: usize, j: usize) -> usize
    requires { (i < slip_lines) × (j < 3) }
    ensures { result ≡ premise_of (line_from slip.now (8 * i)) j }
{
    let at = Line::SIZE * i + 2 + 2 * j;
    byte(slip, at) + 256 * byte(slip, at + 1)
}

// Whether no line with this member is right by a credential, whatever its premises.
pub(crate) fn useless(credential: Option<Record>, member: usize) -> bool
    ensures { result ≡ useless_of (credential_of credential) member }
{
    match credential {
        Some(Record::Entity { head: _, entity }) => member != entity,
        Some(_) => false,
        None => true,
    }
}

// What premise j of a line by A.r1.r2 has to state: that X, which its first premise is about, is in A.r1; that the member is in X.r2.
pub(crate) fn wanted_by_link(
    issuer: usize,
    first: usize,
    second: usize,
    member: usize,
    linked: usize,
    j: usize,
) -> Option<Claim>
    requires { j < 3 }
    ensures { fact_in result ≡ get_elem? ((issuer · first ∋ linked) ∷ (linked · second ∋ member) ∷ []) j }
{
    let near = Role {
        entity: issuer,
        name: first,
    };
    let far = Role {
        entity: linked,
        name: second,
    };
    pick(
        j,
        Some(Claim {
            role: near,
            member: linked,
        }),
        Some(Claim { role: far, member }),
        None,
    )
}

// What premise j of a line has to state, by the line's credential and member and the member that its first premise is about.
pub(crate) fn wanted(
    credential: Option<Record>,
    member: usize,
    linked: usize,
    j: usize,
) -> Option<Claim>
    requires { j < 3 }
    ensures { fact_in result ≡ wanted_at (credential_of credential) member linked j }
{
    match credential? {
        Record::Entity { head: _, entity: _ } => None,
        Record::Role { head: _, role } => pick(j, Some(Claim { role, member }), None, None),
        Record::Link {
            head,
            first,
            second,
        } => wanted_by_link(head.entity, first, second, member, linked, j),
        Record::TwoParts { head: _, one, two } => pick(
            j,
            Some(Claim { role: one, member }),
            Some(Claim { role: two, member }),
            None,
        ),
        Record::ThreeParts {
            head: _,
            one,
            two,
            three,
        } => {
            let last = Claim {
                role: three,
                member,
            };
            pick(
                j,
                Some(Claim { role: one, member }),
                Some(Claim { role: two, member }),
                Some(last),
            )
        }
    }
}

// A bundle that the reader accepts, with the sizes that block 0 says.
#[derive(Clone, Copy)]
pub(crate) struct Accepted<'a> {
    pub(crate) bytes: &'a [u8],
    pub(crate) sizes: Sizes,
    ghost accepts: { Accepts bytes.now sizes } by { Prim.hlevel props },
}

impl Accepted<'_> {
    // The credential of a number, where it is from 1 to the number of records.
    pub(crate) fn credential(&self, number: usize) -> Option<Record>
        ensures { credential_of result ≡ book_in self.now.bytes.now number }
    {
        if outside(self.sizes.records, number) {
            return None;
        }
        record_at(self.bytes, number)
    }

    // What line number p, from 1, of the first so many lines states.
    pub(crate) fn stated(&self, slip: &[u8], lines: usize, p: usize) -> Option<Claim>
        requires { lines ≤ slip_lines }
        ensures { fact_in result ≡ stated_of (book_in self.now.bytes.now) (item (lines_of slip.now lines) p) }
    {
        if outside(lines, p) {
            return None;
        }
        let at = Line::SIZE * (p - 1);
        let number = byte(slip, at + 1);
        stated_by(self.credential(number), byte(slip, at))
    }

    // Whether premise j of line i is wrong.
    pub(crate) fn broken(&self, slip: &[u8], i: usize, j: usize) -> bool
        requires { (i < slip_lines) × (j < 3) }
        ensures { result ≡ premise_wrong_at (book_in self.now.bytes.now) slip.now i j }
    {
        let at = Line::SIZE * i;
        let member = byte(slip, at);
        let its = self.credential(byte(slip, at + 1));
        if useless(its, member) {
            return true;
        }
        let linked = member_of(self.stated(slip, i, premise(slip, i, 0)));
        let p = premise(slip, i, j);
        match wanted(its, member, linked, j) {
            Some(claim) => !same(self.stated(slip, i, p), claim.role, claim.member),
            None => p != 0,
        }
    }
}
