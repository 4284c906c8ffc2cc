// Round after round until a table is at rest, and a lent table filled so.
ghost use Rattle.std.specs.Prelude.{◌≡◌, ◌≤◌, length};
ghost use Rattle.rt0.specs.Word.{Fits};
ghost use Rattle.words.specs.Sizes.{most_entities, width, table_words};
ghost use Rattle.tables.specs.Open.{start_words};
ghost use Rattle.bundle.specs.Rows.{Accepts};
ghost use Rattle.bundle.specs.Held.{held};
ghost use Rattle.tables.specs.Rest.{AtRest, RestsIn};

use crate::round::round;
use crate::same::same;
use crate::start::{OpenRoles, start};
use bundle::read::Sizes;
use words::step::{Step, write_steps};
use words::table::{Table, copy};

// Round after round from the words, each from the table before it, until one changes nothing; the number of rounds that did.
fn settle(bundle: &[u8], sizes: Sizes, words: &mut [u32]) -> usize
    requires { Accepts bundle.now sizes × Fits sizes.entities most_entities width words.old }
    ensures { AtRest sizes.entities (held bundle.now) words.old result words.new }
{
    let mut steps = [0usize; Step::MOST];
    write_steps(bundle, &mut steps);
    let mut rounds: usize = 0;
    // Only the round itself tells whether it is the last, so that a `for` would need a bound on them and an answer past it.
    loop {
        let mut from = [0u32; Table::WORDS];
        copy(words, &mut from);
        round(&steps, sizes.records, sizes.entities, &from, words);
        if same(&from, words) {
            return rounds;
        }
        rounds += 1;
    }
}

// The same from everyone in the open roles and nobody elsewhere.
fn settle_from(bundle: &[u8], sizes: Sizes, roles: OpenRoles, words: &mut [u32]) -> usize
    requires { Accepts bundle.now sizes × (length words.old ≡ table_words) }
    ensures { AtRest sizes.entities (held bundle.now) (start_words sizes roles) result words.new }
{
    start(sizes, roles, words);
    settle(bundle, sizes, words)
}

// A lent table, of which only the words of a table are filled; the number of rounds.
pub(crate) fn fill_table(bundle: &[u8], sizes: Sizes, roles: OpenRoles, table: &mut [u32]) -> usize
    requires { Accepts bundle.now sizes × (table_words ≤ length table.old) }
    ensures { RestsIn sizes.entities (held bundle.now) (start_words sizes roles)
        table.old result table.new }
{
    let first = 0;
    let end = first + Table::WORDS;
    settle_from(bundle, sizes, roles, &mut table[first..end])
}
