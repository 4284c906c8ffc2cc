// What one use of a step gives from a table, as a whole word, and where it goes. Every step has an answer, that of a record or not.
ghost use Rattle.std.specs.Prelude.{◌≡◌, ◌≤◌, get_or};
ghost use Rattle.words.specs.Sizes.{most_entities};
ghost use Rattle.words.specs.Give.{single_of, link_of};
ghost use Rattle.words.specs.Step.{body_gives, head_in, step_gives};

use crate::step::{Gain, Step};
use crate::table::{Table, word};
use base::outside;

// The word of one entity, or 0.
pub fn single(entity: usize) -> u32
    ensures { result ≡ single_of entity }
{
    if outside(Table::ENTITIES, entity) {
        return 0;
    }
    1u32 << (entity - 1)
}

// Every member of X.name, for every member X of the word.
fn link_word(words: &[u32], members: u32, name: usize, entities: usize) -> u32
    requires { entities ≤ most_entities }
    ensures { result ≡ link_of words.now members name entities }
{
    let mut gained: u32 = 0;
    for x in 0..entities {
        if (members >> x) % 2 == 1 {
            gained |= word(words, x + 1, name);
        }
    }
    gained
}

// The word of a number, or 0.
fn word_at(words: &[u32], at: usize) -> u32
    ensures { result ≡ get_or words.now at 0 }
{
    words.get(at).copied().unwrap_or(0)
}

// What a body gives, by the form.
fn body_gives(form: usize, body: usize, words: &[u32], entities: usize) -> u32
    ensures { result ≡ body_gives entities words.now form body }
{
    let one = body % Step::PART;
    let two = body / Step::PART % Step::PART;
    match form {
        1 => single(one),
        2 => word_at(words, one),
        3 => link_word(
            words,
            word_at(words, one),
            two,
            entities.min(Table::ENTITIES),
        ),
        4 => word_at(words, one) & word_at(words, two),
        5 => {
            let three = body / Step::PART / Step::PART;
            word_at(words, one) & (word_at(words, two) & word_at(words, three))
        }
        _ => 0,
    }
}

// What one use of a step gives, and the number of the word that it goes to.
pub fn gain(step: usize, words: &[u32], entities: usize) -> Gain
    ensures { (result.place ≡ head_in step) × (result.word ≡ step_gives entities words.now step) }
{
    let body = step / Step::PART / Step::PART;
    Gain {
        place: step / Step::PART % Step::PART,
        word: body_gives(step % Step::PART, body, words, entities),
    }
}
