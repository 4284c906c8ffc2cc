// Whether a line is right: the line of its candidate is written and compared with it, byte for byte.
ghost use Rattle.std.specs.Prelude.{◌≡◌, true, ◌↔◌, ◌≤◌, length, take};
ghost use Rattle.records.specs.Bytes.{credential_in};
ghost use Rattle.candidates.specs.Tells.{TellsLine, TellsRight};

use crate::find::candidate;
use records::mistake::record_wrong;
use spelling::{Line, put_line};

// Whether a line is the first bytes of a text.
fn is_front(line: &[u8], text: &[u8], n: usize) -> bool
    requires { n ≤ length text.now }
    ensures { (result ≡ true) ↔ (line.now ≡ take n text.now) }
{
    line == &text[..n]
}

// Whether a line is the line of a record.
fn is_line(line: &[u8], record: &[u8]) -> bool
    ensures { TellsLine line.now (credential_in «record».now) result }
{
    let mut own = [0u8; Line::MOST];
    let n = put_line(&mut own, 0, record);
    is_front(line, &own, n)
}

// Whether a line is right over so many entities and role names.
pub fn right_line(entities: usize, names: usize, line: &[u8]) -> bool
    ensures { TellsRight entities names line.now result }
{
    let record = candidate(line);
    if record_wrong(entities, names, &record) {
        return false;
    }
    is_line(line, &record)
}
