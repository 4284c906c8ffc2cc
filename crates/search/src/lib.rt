// The search: whether a person is in a role, with the tables, the rounds and, for YES, a slip.
#![tactic(auto)]

ghost use Rattle.answers.specs.Answer.{outcome_of};
ghost use Rattle.bundle.specs.Question.{question as ask};
ghost use Rattle.tables.specs.Open.{open_names};
ghost use Rattle.search.specs.Promise.{PromiseWith, Promise, lent};
ghost use Rattle.search.specs.Concluded.{RefusedAs};

use crate::answer::work_out;
use answers::Answer;
use base::refusal::{Cause, Refusal};
use bundle::question::{Question, question_wrong};
use bundle::read::{read, sizes_of};
use rt0::Slip;
use words::table::Table;

pub mod answer;
pub mod slip;

// The refusal of a bundle with a wrong question, or else with too little memory: the reader's own goes first, then 7, then 8.
fn refuse(bundle: &[u8], wrong: bool) -> Result<Answer, Refusal<u16>>
    ensures { RefusedAs bundle.now wrong (outcome_of result) }
{
    read(bundle)?;
    if wrong {
        return Err(Cause::Question.at(0));
    }
    Err(Cause::Memory.at(0))
}

// The answer to every bundle, question and memory, where any absent shelf opens the names in a word. The bundle is read once: here if a
// refusal is due, or else with the tables.
pub fn search_opening(
    bundle: &[u8],
    names: u32,
    question: Question,
    sure: &mut [u32],
    possible: &mut [u32],
    slip: &mut [u8],
) -> Result<Answer, Refusal<u16>>
    ensures { PromiseWith (open_names names bundle.now) bundle.now question
        (lent sure.old possible.old slip.old)
        (lent sure.new possible.new slip.new) (outcome_of result) }
{
    let sizes = sizes_of(bundle);
    let wrong = question_wrong(sizes.entities, sizes.names, question);
    let short = (sure.len() < Table::WORDS)
        | (possible.len() < Table::WORDS)
        | (slip.len() < Slip::BYTES);
    if wrong | short {
        return refuse(bundle, wrong);
    }
    work_out(bundle, names, question, sure, possible, slip)
}

// The same where an absent shelf opens its own roles alone.
pub fn search(
    bundle: &[u8],
    d: u8,
    a: u8,
    r: u8,
    sure: &mut [u32],
    possible: &mut [u32],
    slip: &mut [u8],
) -> Result<Answer, Refusal<u16>>
    ensures { Promise bundle.now (ask d a r)
        (lent sure.old possible.old slip.old)
        (lent sure.new possible.new slip.new) (outcome_of result) }
{
    let question = Question {
        person: d as usize,
        entity: a as usize,
        name: r as usize,
    };
    search_opening(bundle, 0, question, sure, possible, slip)
}
