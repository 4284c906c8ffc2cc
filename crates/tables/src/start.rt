// The table that the rounds start from: everyone in every open role, and nobody elsewhere. Which roles are open is one value.
ghost use Rattle.std.specs.Prelude.{◌≡◌, suc, ◌-◌, ◌/◌, ◌%◌, ◌^◌, ◌<◌, ◌≤◌, length};
ghost use Rattle.rt0.specs.Credential.{◌·◌};
ghost use Rattle.rt0.specs.Completion.{is_absent};
ghost use Rattle.rt0.specs.Word.{everyone_word, open_within};
ghost use Rattle.bundle.specs.Held.{shelves};
ghost use Rattle.words.specs.Sizes.{most_entities, width, table_words};
ghost use Rattle.tables.specs.Open.{open_in, absent_word, opened_roles, start_words};

use bundle::access::{Mark, mark_at};
use bundle::read::Sizes;
use words::table::Table;

// Which roles are open: those of the entities in one word, and those of the names in the other.
#[derive(Clone, Copy)]
pub struct OpenRoles {
    pub entities: u32,
    pub names: u32,
}

// Whether the shelf of an entity is absent.
fn is_absent(bundle: &[u8], entity: usize) -> bool
    ensures { result ≡ is_absent (shelves bundle.now entity) }
{
    let Some(mark) = mark_at(bundle, entity) else {
        return false;
    };
    match mark {
        Mark::Present => false,
        Mark::Absent => true,
    }
}

// The word of the absent entities.
fn absent(bundle: &[u8], entities: usize) -> u32
    requires { entities ≤ most_entities }
    ensures { result ≡ absent_word bundle.now entities }
{
    let mut word: u32 = 0;
    for i in 0..entities {
        if is_absent(bundle, i + 1) {
            word |= 1u32 << i;
        }
    }
    word
}

// The roles that a bundle's marks leave open: those of absent entities, and, if there are any, those of the names given.
pub(crate) fn opened(bundle: &[u8], entities: usize, names: u32) -> OpenRoles
    requires { entities ≤ most_entities }
    ensures { result ≡ opened_roles bundle.now entities names }
{
    let word = absent(bundle, entities);
    let loose = if word == 0 { 0 } else { names };
    OpenRoles {
        entities: word,
        names: loose,
    }
}

// The word of everyone.
fn everyone(entities: usize) -> u32
    requires { entities ≤ most_entities }
    ensures { result ≡ 2 ^ entities - 1 }
{
    ((1u64 << entities) - 1) as u32
}

// The word of a role by its number: everyone where the role is within so many entities and names and open.
fn open_word(sizes: Sizes, roles: OpenRoles, i: usize) -> u32
    requires { (sizes.entities ≤ most_entities) × (i < table_words) }
    ensures { result ≡ everyone_word sizes.entities
        (open_within sizes.entities sizes.names (open_in roles) (suc (i / width) · suc (i % width))) }
{
    let entity = i / Table::NAMES;
    let name = i % Table::NAMES;
    let role_open = ((roles.entities >> entity) % 2 == 1) | ((roles.names >> name) % 2 == 1);
    if (entity + 1 <= sizes.entities) & (name + 1 <= sizes.names) & role_open {
        everyone(sizes.entities)
    } else {
        0
    }
}

// Everyone in every open role, and nobody elsewhere.
pub(crate) fn start(sizes: Sizes, roles: OpenRoles, words: &mut [u32])
    requires { (sizes.entities ≤ most_entities) × (length words.old ≡ table_words) }
    ensures { words.new ≡ start_words sizes roles }
{
    for (i, word) in words.iter_mut().enumerate() {
        *word = open_word(sizes, roles, i);
    }
}
