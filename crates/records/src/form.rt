// A record by its form: its head, and its body.
ghost use Rattle.std.specs.Prelude.{◌≡◌, ◌+◌, ◌<◌};
ghost use Rattle.records.specs.Form.{role_in, intersection_in, record_in, head_of};

use base::byte;

// A role by its entity and its name.
#[derive(Clone, Copy)]
pub struct Role {
    pub entity: usize,
    pub name: usize,
}

// A record by its form: its head, and its body.
#[derive(Clone, Copy)]
pub enum Record {
    Entity {
        head: Role,
        entity: usize,
    },
    Role {
        head: Role,
        role: Role,
    },
    Link {
        head: Role,
        first: usize,
        second: usize,
    },
    TwoParts {
        head: Role,
        one: Role,
        two: Role,
    },
    ThreeParts {
        head: Role,
        one: Role,
        two: Role,
        three: Role,
    },
}

// The role that two bytes of a record stand for.
fn role_at(record: &[u8], at: usize) -> Role
    requires { at < 12 }
    ensures { result ≡ role_in «record».now at }
{
    Role {
        entity: byte(record, at),
        name: byte(record, at + 1),
    }
}

// The intersection that the bytes of a record are.
fn parts_of(record: &[u8]) -> Record
    ensures { result ≡ intersection_in «record».now }
{
    let head = role_at(record, 1);
    let one = role_at(record, 4);
    let two = role_at(record, 6);
    if byte(record, 3) == 3 {
        let three = role_at(record, 8);
        Record::ThreeParts {
            head,
            one,
            two,
            three,
        }
    } else {
        Record::TwoParts { head, one, two }
    }
}

// The record that the bytes are, by its form; of an unknown form there is none.
pub fn record_of(record: &[u8]) -> Option<Record>
    ensures { result ≡ record_in «record».now }
{
    let head = role_at(record, 1);
    match byte(record, 0) {
        1 => Some(Record::Entity {
            head,
            entity: byte(record, 3),
        }),
        2 => Some(Record::Role {
            head,
            role: role_at(record, 3),
        }),
        3 => Some(Record::Link {
            head,
            first: byte(record, 3),
            second: byte(record, 4),
        }),
        4 => Some(parts_of(record)),
        _ => None,
    }
}

// The head of a record, where there is one.
pub fn head_of(record: Option<Record>) -> Option<Role>
    ensures { result ≡ head_of «record» }
{
    match record? {
        Record::Entity { head, entity: _ } => Some(head),
        Record::Role { head, role: _ } => Some(head),
        Record::Link {
            head,
            first: _,
            second: _,
        } => Some(head),
        Record::TwoParts {
            head,
            one: _,
            two: _,
        } => Some(head),
        Record::ThreeParts {
            head,
            one: _,
            two: _,
            three: _,
        } => Some(head),
    }
}
