// The line of a record, written into lent memory from a place on as far as there is room. Each function gives the place behind what it wrote.
// All are total.
#![tactic(auto)]

ghost use Rattle.std.specs.Prelude.{◌≡◌, ◌++◌, min, length};
ghost use Rattle.rt0.specs.Credential.{◌·◌};
ghost use Rattle.base.specs.Byte.{byte_at};
ghost use Rattle.records.specs.Bytes.{parts_in, body_in, credential_in};
ghost use Rattle.text.specs.Written.{Wrote};
ghost use Rattle.spelling.specs.Line.{ampersand, entity_text, name_text, role_text, parts_text, body_text, line_of, most_bytes};

use base::byte;
use text::{number, word};

// The longest line of a record has fewer bytes.
#[derive(Drop)]
pub struct Line;

impl Line {
    pub const MOST: usize = 48;
}

// A byte of a record, as the number that it is.
fn number_in(record: &[u8], i: usize) -> u16
    ensures { result ≡ byte_at «record».now i }
{
    byte(record, i) as u16
}

// An entity.
fn put_entity(to: &mut [u8], at: usize, entity: u16) -> usize
    ensures { Wrote to.old at (entity_text entity) to.new result }
{
    let next = word(to, at, b"e");
    number(to, next, entity)
}

// A role name behind its dot.
fn put_name(to: &mut [u8], at: usize, name: u16) -> usize
    ensures { Wrote to.old at (name_text name) to.new result }
{
    let next = word(to, at, b".r");
    number(to, next, name)
}

// A role.
fn put_role(to: &mut [u8], at: usize, entity: u16, name: u16) -> usize
    ensures { Wrote to.old at (role_text (entity · name)) to.new result }
{
    let next = put_entity(to, at, entity);
    put_name(to, next, name)
}

// The role that stands in two bytes of a record.
fn put_role_in(to: &mut [u8], at: usize, record: &[u8], i: usize, j: usize) -> usize
    ensures { Wrote to.old at (role_text (byte_at «record».now i · byte_at «record».now j)) to.new result }
{
    put_role(to, at, number_in(record, i), number_in(record, j))
}

// A further part of an intersection, behind its ampersand.
fn put_part(to: &mut [u8], at: usize, record: &[u8], i: usize, j: usize) -> usize
    ensures { Wrote to.old at (ampersand ++ role_text (byte_at «record».now i · byte_at «record».now j)) to.new result }
{
    let next = word(to, at, b" & ");
    put_role_in(to, next, record, i, j)
}

// The parts of an intersection.
fn put_parts(to: &mut [u8], at: usize, record: &[u8]) -> usize
    ensures { Wrote to.old at (parts_text (parts_in «record».now)) to.new result }
{
    let one = put_role_in(to, at, record, 4, 5);
    let two = put_part(to, one, record, 6, 7);
    if byte(record, 3) == 3 {
        put_part(to, two, record, 8, 9)
    } else {
        two
    }
}

// The linked role of the issuer.
fn put_link(to: &mut [u8], at: usize, record: &[u8]) -> usize
    ensures { Wrote to.old at (role_text (byte_at «record».now 1 · byte_at «record».now 3) ++ name_text (byte_at «record».now 4)) to.new result }
{
    let next = put_role_in(to, at, record, 1, 3);
    put_name(to, next, number_in(record, 4))
}

// The body of a record.
fn put_body(to: &mut [u8], at: usize, record: &[u8]) -> usize
    ensures { Wrote to.old at (body_text (byte_at «record».now 1) (body_in «record».now)) to.new result }
{
    match byte(record, 0) {
        1 => put_entity(to, at, number_in(record, 3)),
        2 => put_role_in(to, at, record, 3, 4),
        3 => put_link(to, at, record),
        _ => put_parts(to, at, record),
    }
}

// The line of a record.
pub fn put_line(to: &mut [u8], at: usize, record: &[u8]) -> usize
    ensures { Wrote to.old at (line_of (credential_in «record».now)) to.new result }
{
    let head = put_role_in(to, at, record, 1, 2);
    let next = word(to, head, b" <- ");
    let body = put_body(to, next, record);
    word(to, body, b"\n")
}

// The number of bytes of the line of a record.
pub fn line_length(record: &[u8]) -> usize
    ensures { result ≡ min most_bytes (length (line_of (credential_in «record».now))) }
{
    let mut line = [0u8; Line::MOST];
    put_line(&mut line, 0, record)
}
