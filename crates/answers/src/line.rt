// What the programs print: the line of an answer, of a refusal or of an accepted bundle, and messages, each written from its start, part by
// part, into a text of a fixed size.
ghost use Rattle.std.specs.Prelude.{◌≡◌, [], ◌∷◌, ◌++◌, ◌≤◌, length};
ghost use Rattle.text.specs.Decimal.{decimal};
ghost use Rattle.text.specs.Written.{Wrote};
ghost use Rattle.answers.specs.Line.{newline, refusal_line, accepted_line, message_of, line_of, Holds};

use crate::Answer;
use base::refusal::Refusal;

// A text in the making or made: the first `length` bytes, with zeros past them.
#[derive(Clone, Copy)]
pub struct Text {
    pub bytes: [u8; Text::CAPACITY],
    pub length: usize,
}

impl Text {
    // How many bytes a text has room for: every line, and the messages of the programs.
    pub const CAPACITY: usize = 64;

    // Not by `write!`: its contract says what is written where it returns an Ok and never that it does, and a line is promised of all numbers.

    // The text with one byte more, where there is room.
    fn put(mut self, byte: u8) -> Text
        ensures { Wrote self.bytes self.length (byte ∷ []) result.bytes result.length }
    {
        let at = self.length;
        self.length = text::put(&mut self.bytes, at, byte);
        self
    }

    // The text with a word more, as far as there is room.
    fn word(mut self, letters: &[u8]) -> Text
        ensures { Wrote self.bytes self.length letters.now result.bytes result.length }
    {
        let at = self.length;
        self.length = text::word(&mut self.bytes, at, letters);
        self
    }

    // The text with a number more, in decimal, as far as there is room.
    fn number(mut self, n: u16) -> Text
        ensures { Wrote self.bytes self.length (decimal n) result.bytes result.length }
    {
        let at = self.length;
        self.length = text::number(&mut self.bytes, at, n);
        self
    }
}

// A text that shows nothing.
pub fn empty() -> Text
    ensures { Holds result [] × (result.length ≡ 0) }
{
    Text {
        bytes: [0u8; Text::CAPACITY],
        length: 0,
    }
}

// The line of a word and a number.
fn word_and_number(letters: &[u8], n: u16) -> Text
    requires { length letters.now ≤ 8 }
    ensures { Holds result (letters.now ++ decimal n ++ newline) }
{
    empty().word(letters).number(n).put(b'\n')
}

// The line of a refusal: `REFUSED number place`.
pub fn refusal(kind: u8, place: u16) -> Text
    ensures { Holds result (refusal_line kind place) }
{
    let worded = empty().word(b"REFUSED ");
    let spaced = worded.number(kind as u16).put(b' ');
    spaced.number(place).put(b'\n')
}

// The line of an accepted bundle: `ACCEPTED E R N`.
pub fn accepted(entities: u8, names: u8, records: u8) -> Text
    ensures { Holds result (accepted_line entities names records) }
{
    let worded = empty().word(b"ACCEPTED ");
    let with_entities = worded.number(entities as u16).put(b' ');
    let with_names = with_entities.number(names as u16).put(b' ');
    with_names.number(records as u16).put(b'\n')
}

// A message as it stands, or nothing where it is longer than a text has room for.
pub fn message(words: &[u8]) -> Text
    ensures { Holds result (message_of words.now) }
{
    if Text::CAPACITY < words.len() {
        return empty();
    }
    empty().word(words)
}

// The line of an answer, or of a refusal.
pub fn line(answer: Result<Answer, Refusal<u16>>) -> Text
    ensures { Holds result (line_of answer) }
{
    match answer {
        Ok(answer) => match answer {
            Answer::Yes { rounds, lines: _ } => word_and_number(b"YES ", rounds),
            Answer::No { rounds } => word_and_number(b"NO ", rounds),
            Answer::Unsure { rounds } => word_and_number(b"UNSURE ", rounds),
        },
        Err(refused) => refusal(refused.number, refused.place),
    }
}
