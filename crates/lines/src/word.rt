// The words of a table and their bits, at every number.
ghost use Rattle.std.specs.Prelude.{◌≡◌, get_or};
ghost use Rattle.lines.specs.Numbered.{is_one};

use words::table::Table;

// Whether a word has the bit of a number.
pub(crate) fn has(word: u32, d: usize) -> bool
    ensures { result ≡ is_one word d }
{
    d < Table::ENTITIES && (word >> d) % 2 == 1
}

// A word of a table, or 0 where it has none.
pub(crate) fn word_at(words: &[u32], i: usize) -> u32
    ensures { result ≡ get_or words.now i 0 }
{
    words.get(i).copied().unwrap_or(0)
}
