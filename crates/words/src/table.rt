// Tables of words: one word for each role, one bit for each member. What lies outside a table has an answer too.
ghost use Rattle.std.specs.Prelude.{◌≡◌};
ghost use Rattle.words.specs.Give.{outside_tables, place_of, word_of, copied_over};

use base::outside;
use bundle::edition::Edition;

// The sizes of a table: role names for each entity, entities, words, and facts, one for each bit.
#[derive(Drop)]
pub struct Table;

impl Table {
    pub const NAMES: usize = Edition::MOST_NAMES;

    pub const ENTITIES: usize = 32;

    pub const WORDS: usize = Table::NAMES * Table::ENTITIES;

    pub const FACTS: usize = Table::ENTITIES * Table::WORDS;
}

// Whether a role is outside the tables.
fn outside_tables(entity: usize, name: usize) -> bool
    ensures { result ≡ outside_tables entity name }
{
    outside(Table::ENTITIES, entity) | outside(Table::NAMES, name)
}

// The number of a role's word, or that of all words where it has none.
pub fn place(entity: usize, name: usize) -> usize
    ensures { result ≡ place_of entity name }
{
    if outside_tables(entity, name) {
        return Table::WORDS;
    }
    Table::NAMES * (entity - 1) + (name - 1)
}

// The word of a role, or 0.
pub fn word(words: &[u32], entity: usize, name: usize) -> u32
    ensures { result ≡ word_of words.now entity name }
{
    if outside_tables(entity, name) {
        return 0;
    }
    let at = Table::NAMES * (entity - 1) + (name - 1);
    words.get(at).copied().unwrap_or(0)
}

// The words of one table over those of another, as far as both go.
pub fn copy(from: &[u32], to: &mut [u32])
    ensures { to.new ≡ copied_over from.now to.old }
{
    let end = from.len().min(to.len());
    for i in 0..end {
        to[i] = from[i];
    }
}
