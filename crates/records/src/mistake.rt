// What is wrong with a record over so many entities and role names: the first of five kinds of mistake that some byte shows.
ghost use Rattle.std.specs.Prelude.{◌≡◌};
ghost use Rattle.base.specs.Lowest.{lowest};
ghost use Rattle.records.specs.Kinds.{entity_byte, name_byte, parts_byte, wrong_by, first_of};
ghost use Rattle.records.specs.Mistake.{Mistaken, cause_of, mistake_number, mistake_kind, record_wrong};

use base::refusal::Cause;
use base::{byte, outside};

// The kinds of mistake, in the order in which they go first.
#[derive(Clone, Copy)]
pub enum Mistake {
    // The form is not 1 to 4.
    UnknownForm,
    // An intersection has neither two nor three parts.
    NumberOfParts,
    // An entity is not among those of the bundle.
    EntityOutOfRange,
    // A role name is not among those of the bundle.
    NameOutOfRange,
    // A byte that the form does not use is not zero.
    ByteNotZero,
}

// The number of bytes of a record, and the number of kinds of mistake.
#[derive(Drop)]
pub struct Twelve;

impl Twelve {
    pub const BYTES: usize = 12;

    pub const KINDS: usize = 5;
}

// Whether byte i of a record of this form with so many parts is an entity.
fn entity_byte(form: usize, parts: usize, i: usize) -> bool
    ensures { result ≡ entity_byte form parts i }
{
    (i == 1)
        | ((i == 3) & ((form == 1) | (form == 2)))
        | ((form == 4) & ((i == 4) | (i == 6) | ((i == 8) & (parts == 3))))
}

// Whether it is a role name.
fn name_byte(form: usize, parts: usize, i: usize) -> bool
    ensures { result ≡ name_byte form parts i }
{
    (i == 2)
        | ((i == 4) & ((form == 2) | (form == 3)))
        | ((i == 3) & (form == 3))
        | ((form == 4) & ((i == 5) | (i == 7) | ((i == 9) & (parts == 3))))
}

// Whether it is the number of parts.
fn parts_byte(form: usize, i: usize) -> bool
    ensures { result ≡ parts_byte form i }
{
    (i == 3) & (form == 4)
}

// The number, from 0, of the first of five flags that holds, or their number.
fn first_of(one: bool, two: bool, three: bool, four: bool, five: bool) -> usize
    ensures { result ≡ first_of one two three four five }
{
    if one {
        return 0;
    }
    if two {
        return 1;
    }
    if three {
        return 2;
    }
    if four {
        return 3;
    }
    if five { 4 } else { Twelve::KINDS }
}

// The kind of mistake that byte i of a record shows, counted from 0, or their number.
fn kind_at(entities: usize, names: usize, form: usize, parts: usize, i: usize, b: usize) -> usize
    ensures { result ≡ lowest (λ k. wrong_by k entities names form parts i b) 5 }
{
    let is_parts = parts_byte(form, i);
    let is_entity = entity_byte(form, parts, i);
    let is_name = name_byte(form, parts, i);
    first_of(
        (i == 0) & outside(4, b),
        is_parts & ((b != 2) & (b != 3)),
        is_entity & outside(entities, b),
        is_name & outside(names, b),
        !((i == 0) | is_parts | is_entity | is_name) & (b != 0),
    )
}

// The first kind of mistake that some byte of a record shows, counted from 0, or their number.
fn first_kind(entities: usize, names: usize, record: &[u8]) -> usize
    ensures { result ≡ mistake_kind entities names «record».now }
{
    let form = byte(record, 0);
    let parts = byte(record, 3);
    let mut least: usize = Twelve::KINDS;
    for i in 0..Twelve::BYTES {
        let kind = kind_at(entities, names, form, parts, i, byte(record, i));
        if kind < least {
            least = kind;
        }
    }
    least
}

impl From<Mistake> for Cause {
    ghost from_gives = { λ m c. c ≡ cause_of m };

    fn from(mistake: Mistake) -> Cause {
        match mistake {
            Mistake::UnknownForm => Cause::UnknownForm,
            Mistake::NumberOfParts => Cause::NumberOfParts,
            Mistake::EntityOutOfRange => Cause::EntityOutOfRange,
            Mistake::NameOutOfRange => Cause::NameOutOfRange,
            Mistake::ByteNotZero => Cause::ByteNotZero,
        }
    }
}

// What is wrong with a record over so many entities and role names, if anything is.
pub fn mistake_of(entities: usize, names: usize, record: &[u8]) -> Option<Mistake>
    ensures { Mistaken entities names «record».now result }
{
    match first_kind(entities, names, record) {
        0 => Some(Mistake::UnknownForm),
        1 => Some(Mistake::NumberOfParts),
        2 => Some(Mistake::EntityOutOfRange),
        3 => Some(Mistake::NameOutOfRange),
        4 => Some(Mistake::ByteNotZero),
        _ => None,
    }
}

// The paper's number of a mistake, 0 for none.
pub fn number_of(mistake: Option<Mistake>) -> u8
    ensures { result ≡ mistake_number mistake }
{
    match mistake {
        Some(mistake) => u8::from(Cause::from(mistake)),
        None => 0,
    }
}

// Whether anything is wrong with it.
pub fn record_wrong(entities: usize, names: usize, record: &[u8]) -> bool
    ensures { result ≡ record_wrong entities names «record».now }
{
    first_kind(entities, names, record) < Twelve::KINDS
}
