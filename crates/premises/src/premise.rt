// The premises of a line, found without a scan of the lines: the index has the number of the line that states each fact.
ghost use Rattle.std.specs.Prelude.{◌≡◌, ◌<◌};
ghost use Rattle.rt0.specs.Credential.{IsEntity};
ghost use Rattle.words.specs.Sizes.{most_entities};
ghost use Rattle.premises.specs.Premise.{is_between, lowest_between, link_premises, premises_in, premises_by};

use crate::fact::line_of;
use base::outside;
use records::form::{Record, Role};
use words::table::{Table, word};

// The premises of a line: line numbers, or 0.
#[derive(Clone, Copy)]
pub struct Premises {
    pub first: u16,
    pub second: u16,
    pub third: u16,
}

impl Premises {
    // The three.
    pub(crate) fn of(first: u16, second: u16, third: u16) -> Premises
        ensures { result ≡ record { first = first; second = second; third = third } }
    {
        Premises {
            first,
            second,
            third,
        }
    }
}

// Whether X is in the word, and the member in X.name; X is entity x + 1.
fn is_between(words: &[u32], members: u32, name: usize, member: usize, x: usize) -> bool
    requires { (x < most_entities) × IsEntity most_entities member }
    ensures { result ≡ is_between words.now members name member x }
{
    let held = word(words, x + 1, name);
    ((members >> x) % 2 == 1) & ((held >> (member - 1)) % 2 == 1)
}

// The lowest X in the word such that the member is in X.name, or one above all entities.
fn between(words: &[u32], members: u32, name: usize, member: usize) -> usize
    requires { IsEntity most_entities member }
    ensures { result ≡ lowest_between words.now members name member }
{
    for x in 0..Table::ENTITIES {
        if is_between(words, members, name, member, x) {
            return x + 1;
        }
    }
    Table::ENTITIES + 1
}

// The premises by which a link gives a member: X is in its first role, and the member in the role of X with the second name.
fn link_premises(
    words: &[u32],
    index: &[u16],
    first: Role,
    second: usize,
    member: usize,
) -> Premises
    requires { IsEntity most_entities member }
    ensures { result ≡ link_premises words.now index.now first.entity first.name second member }
{
    let members = word(words, first.entity, first.name);
    let x = between(words, members, second, member);
    let role = Role {
        entity: x,
        name: second,
    };
    Premises::of(line_of(index, first, x), line_of(index, role, member), 0)
}

// The premises by which a record gives a member of the tables to its head.
fn premises_in(words: &[u32], index: &[u16], record: Option<Record>, member: usize) -> Premises
    requires { IsEntity most_entities member }
    ensures { result ≡ premises_in words.now index.now «record» member }
{
    let Some(record) = record else {
        return Premises::of(0, 0, 0);
    };
    match record {
        Record::Entity { head: _, entity: _ } => Premises::of(0, 0, 0),
        Record::Role { head: _, role } => Premises::of(line_of(index, role, member), 0, 0),
        Record::Link {
            head,
            first,
            second,
        } => {
            let role = Role {
                entity: head.entity,
                name: first,
            };
            link_premises(words, index, role, second, member)
        }
        Record::TwoParts { head: _, one, two } => {
            Premises::of(line_of(index, one, member), line_of(index, two, member), 0)
        }
        Record::ThreeParts {
            head: _,
            one,
            two,
            three,
        } => {
            let third = line_of(index, three, member);
            Premises::of(
                line_of(index, one, member),
                line_of(index, two, member),
                third,
            )
        }
    }
}

// The premises by which a record gives a member to its head; nobody has none.
pub(crate) fn premises_of(
    words: &[u32],
    index: &[u16],
    record: Option<Record>,
    member: usize,
) -> Premises
    ensures { result ≡ premises_by words.now index.now «record» member }
{
    if outside(Table::ENTITIES, member) {
        return Premises::of(0, 0, 0);
    }
    premises_in(words, index, record, member)
}
