// The steps of a bundle: each record as the rounds use it, worked out once.
ghost use Rattle.std.specs.Prelude.{◌≡◌, ◌<◌, ◌≤◌};
ghost use Rattle.words.specs.Sizes.{table_words, step_part};
ghost use Rattle.words.specs.Give.{place_of};
ghost use Rattle.words.specs.Step.{step_with, among, step_of, Steps};

use crate::table::{Table, place};
use base::outside;
use bundle::access::record_at;
use records::form::{Record, Role};

// The sizes of steps: the values that a part of a step can have, and the most steps of a bundle, one for each record.
#[derive(Drop)]
pub struct Step;

impl Step {
    pub const PART: usize = 4096;

    pub const MOST: usize = 240;
}

// What one use of a step gives, and the number of the word that it goes to.
#[derive(Clone, Copy)]
pub struct Gain {
    pub place: usize,
    pub word: u32,
}

// A number among 1 to most, or else 0.
fn among(most: usize, number: usize) -> usize
    ensures { (result ≡ among most number) × (result ≤ most) }
{
    if outside(most, number) { 0 } else { number }
}

// The number of a role's word.
fn role_place(role: Role) -> usize
    ensures { (result ≡ place_of role.entity role.name) × (result ≤ table_words) }
{
    place(role.entity, role.name)
}

// The step with a form, a head and three parts of a body: numbers of words, the entity of form 1, the second name of form 3.
fn step_with(form: usize, head: usize, one: usize, two: usize, three: usize) -> usize
    requires { (form < step_part) × (head < step_part) × (one < step_part) × (two < step_part) × (three < step_part) }
    ensures { result ≡ step_with form head one two three }
{
    form + Step::PART * (head + Step::PART * (one + Step::PART * (two + Step::PART * three)))
}

// The step of a record.
fn step_of(record: Option<Record>) -> usize
    ensures { result ≡ step_of «record» }
{
    let Some(record) = record else {
        return step_with(0, Table::WORDS, 0, 0, 0);
    };
    match record {
        Record::Entity { head, entity } => {
            step_with(1, role_place(head), among(Table::ENTITIES, entity), 0, 0)
        }
        Record::Role { head, role } => step_with(2, role_place(head), role_place(role), 0, 0),
        Record::Link {
            head,
            first,
            second,
        } => {
            let role = Role {
                entity: head.entity,
                name: first,
            };
            step_with(
                3,
                role_place(head),
                role_place(role),
                among(Table::NAMES, second),
                0,
            )
        }
        Record::TwoParts { head, one, two } => {
            step_with(4, role_place(head), role_place(one), role_place(two), 0)
        }
        Record::ThreeParts {
            head,
            one,
            two,
            three,
        } => {
            let third = role_place(three);
            step_with(5, role_place(head), role_place(one), role_place(two), third)
        }
    }
}

// The steps of a bundle's records, as many as are lent.
pub fn write_steps(bundle: &[u8], steps: &mut [usize])
    ensures { Steps bundle.now steps.old steps.new }
{
    for (n, step) in steps.iter_mut().enumerate() {
        *step = step_of(record_at(bundle, n + 1));
    }
}
