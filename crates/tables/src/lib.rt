// The two tables of a bundle: who is in which role with no completion, and under at least one; with the number of rounds.
#![tactic(auto)]

ghost use Rattle.std.specs.Prelude.{◌≤◌, length, take};
ghost use Rattle.bundle.specs.Rows.{Accepts};
ghost use Rattle.bundle.specs.Held.{held};
ghost use Rattle.words.specs.Sizes.{table_words};
ghost use Rattle.tables.specs.Open.{nothing_open, open_names, start_words};
ghost use Rattle.tables.specs.Rest.{AtRest, RestsIn};
ghost use Rattle.tables.specs.Promise.{TablesWith, TablesPromise, tables};

use crate::settle::fill_table;
use crate::start::{OpenRoles, opened};
use base::refusal::{Cause, Refusal};
use bundle::read::{Sizes, read};
use words::table::{Table, copy};

pub mod round;
pub mod same;
pub mod settle;
pub mod start;

// The tables of a bundle are filled: E, R and N, and the number of rounds over the held credentials.
#[derive(Clone, Copy)]
pub struct Filled {
    pub sizes: Sizes,
    pub rounds: u16,
}

// The table with some roles open, from the one with nothing open and its rounds: where none is open the two are the same.
fn fill_open(
    bundle: &[u8],
    sizes: Sizes,
    roles: OpenRoles,
    rounds: usize,
    sure: &[u32],
    possible: &mut [u32],
) -> usize
    requires { Accepts bundle.now sizes × (table_words ≤ length possible.old) × (table_words ≤ length sure.now)
        × AtRest sizes.entities (held bundle.now) (start_words sizes nothing_open) rounds (take table_words sure.now) }
    ensures { RestsIn sizes.entities (held bundle.now) (start_words sizes roles)
        possible.old result possible.new }
{
    if (roles.entities == 0) & (roles.names == 0) {
        let first = 0;
        let end = first + Table::WORDS;
        copy(&sure[first..end], possible);
        return rounds;
    }
    fill_table(bundle, sizes, roles, possible)
}

// The tables of an accepted bundle: the sure one with nothing open, the possible one with the roles of absent entities open, and, if any is
// absent, those of the names given.
fn fill_accepted(
    bundle: &[u8],
    sizes: Sizes,
    names: u32,
    sure: &mut [u32],
    possible: &mut [u32],
) -> Result<Filled, Refusal<u16>>
    requires { Accepts bundle.now sizes }
    ensures { TablesWith (open_names names bundle.now) bundle.now (tables sure.old possible.old)
        (tables sure.new possible.new) result }
{
    if (sure.len() < Table::WORDS) | (possible.len() < Table::WORDS) {
        return Err(Cause::Memory.at(0));
    }
    let nothing = OpenRoles {
        entities: 0,
        names: 0,
    };
    let rounds = fill_table(bundle, sizes, nothing, sure);
    let open = opened(bundle, sizes.entities, names);
    fill_open(bundle, sizes, open, rounds, sure, possible);
    Ok(Filled {
        sizes,
        rounds: rounds as u16,
    })
}

// The tables of every bundle, in all lent words, where any absent shelf opens the names in a word.
pub fn fill_opening(
    bundle: &[u8],
    names: u32,
    sure: &mut [u32],
    possible: &mut [u32],
) -> Result<Filled, Refusal<u16>>
    ensures { TablesWith (open_names names bundle.now) bundle.now (tables sure.old possible.old)
        (tables sure.new possible.new) result }
{
    let sizes = read(bundle)?;
    fill_accepted(bundle, sizes, names, sure, possible)
}

// The same where an absent shelf opens its own roles alone.
pub fn fill(bundle: &[u8], sure: &mut [u32], possible: &mut [u32]) -> Result<Filled, Refusal<u16>>
    ensures { TablesPromise bundle.now (tables sure.old possible.old)
        (tables sure.new possible.new) result }
{
    fill_opening(bundle, 0, sure, possible)
}
