// The only record that a line can be the line of. Every number is looked for where it stands if the line is right.
ghost use Rattle.std.specs.Prelude.{◌≡◌, ◌+◌, ◌<◌, ◌≤◌, length};
ghost use Rattle.candidates.specs.Candidate.{word_at, digit, number_at, behind, parts_from, body_from, candidate_of};

use base::byte;

// Whether a word stands at a place of a line.
fn has(line: &[u8], at: usize, word: &[u8]) -> bool
    requires { (at < 1000) × (0 < length word.now) × (length word.now < 1000) }
    ensures { result ≡ word_at line.now at word.now }
{
    at <= line.len() && line[at..].starts_with(word)
}

// Whether a byte is a digit.
fn is_digit(b: usize) -> bool
    ensures { result ≡ digit b }
{
    (48 <= b) & (b <= 57)
}

// The number of one digit or two at a place. A longer one is not looked at to its end: no record of that line is right.
fn number_at(line: &[u8], at: usize) -> u8
    requires { at < 1000 }
    ensures { result ≡ number_at line.now at }
{
    let first = byte(line, at);
    let second = byte(line, at + 1);
    if is_digit(second) {
        (10 * (first % 16) + second % 16) as u8
    } else {
        (first % 16) as u8
    }
}

// The place behind it.
fn after(line: &[u8], at: usize) -> usize
    requires { at < 1000 }
    ensures { (result ≡ behind line.now at) × (result ≤ at + 2) }
{
    if is_digit(byte(line, at + 1)) {
        at + 2
    } else {
        at + 1
    }
}

// The intersection with this head and first part, behind which the line goes on at a place.
fn parts(line: &[u8], a: u8, r: u8, b: u8, s: u8, at: usize) -> [u8; 12]
    requires { at < 100 }
    ensures { result ≡ parts_from line.now a r b s at }
{
    let second = at + 4;
    let name = after(line, second) + 2;
    let end = after(line, name);
    let c = number_at(line, second);
    let t = number_at(line, name);
    if has(line, end, b" & ") {
        let third = end + 4;
        let last = after(line, third) + 2;
        let d = number_at(line, third);
        let u = number_at(line, last);
        [4, a, r, 3, b, s, c, t, d, u, 0, 0]
    } else {
        [4, a, r, 2, b, s, c, t, 0, 0, 0, 0]
    }
}

// The record with this head whose body has its first number at a place.
fn body(line: &[u8], a: u8, r: u8, at: usize) -> [u8; 12]
    requires { at < 50 }
    ensures { result ≡ body_from line.now a r at }
{
    let b = number_at(line, at);
    let dot = after(line, at);
    if byte(line, dot) == 10 {
        return [1, a, r, b, 0, 0, 0, 0, 0, 0, 0, 0];
    }
    let s = number_at(line, dot + 2);
    let end = after(line, dot + 2);
    if byte(line, end) == 10 {
        return [2, a, r, b, s, 0, 0, 0, 0, 0, 0, 0];
    }
    if has(line, end, b" & ") {
        return parts(line, a, r, b, s, end);
    }
    [3, a, r, s, number_at(line, end + 2), 0, 0, 0, 0, 0, 0, 0]
}

// The only record that a line can be the line of.
pub fn candidate(line: &[u8]) -> [u8; 12]
    ensures { result ≡ candidate_of line.now }
{
    let name = after(line, 1) + 2;
    let end = after(line, name);
    if has(line, end, b" <- ") {
        body(line, number_at(line, 1), number_at(line, name), end + 5)
    } else {
        [0u8; 12]
    }
}
