// The answer to a right question, with memory enough.
ghost use Rattle.std.specs.Prelude.{◌≡◌, false, ◌-◌, ◌≤◌, length, eqb, Ok};
ghost use Rattle.rt0.specs.Credential.{IsEntity};
ghost use Rattle.rt0.specs.Word.{bit as bit_of};
ghost use Rattle.rt0.specs.Sizes.{slip_bytes};
ghost use Rattle.bundle.specs.Layout.{entities_of, names_of};
ghost use Rattle.bundle.specs.Held.{held};
ghost use Rattle.bundle.specs.Question.{question_wrong, Asked};
ghost use Rattle.answers.specs.Answer.{outcome_of};
ghost use Rattle.words.specs.Sizes.{most_entities};
ghost use Rattle.words.specs.Give.{word_of};
ghost use Rattle.tables.specs.Open.{open_names};
ghost use Rattle.search.specs.Promise.{lent_wrong, lent, PromiseWith};
ghost use Rattle.search.specs.Concluded.{SureShows, ConcludedBy};

use crate::slip::write_slip;
use answers::Answer;
use base::refusal::Refusal;
use bundle::question::Question;
use bundle::read::Sizes;
use tables::fill_opening;
use words::table::word;

// Whether the person is in the role by a table.
fn holds(words: &[u32], question: Question) -> bool
    requires { IsEntity most_entities question.person }
    ensures { result ≡ eqb (bit_of (word_of words.now question.entity question.name) (question.person - 1)) 1 }
{
    (word(words, question.entity, question.name) >> (question.person - 1)) % 2 == 1
}

// The word for the question by the two tables, with a slip for YES.
fn conclude(
    bundle: &[u8],
    sizes: Sizes,
    rounds: u16,
    question: Question,
    sure: &[u32],
    possible: &[u32],
    slip: &mut [u8],
) -> Answer
    requires { Asked bundle.now sizes question × SureShows (held bundle.now) rounds sure.now
        × (slip_bytes ≤ length slip.old) }
    ensures { ConcludedBy bundle.now question rounds possible.now
        slip.old slip.new (outcome_of (Ok result)) }
{
    if holds(sure, question) {
        let lines = write_slip(bundle, sizes, rounds as usize, question, slip);
        return Answer::Yes {
            rounds,
            lines: lines as u16,
        };
    }
    if holds(possible, question) {
        return Answer::Unsure { rounds };
    }
    Answer::No { rounds }
}

// The answer to a question that is in range by block 0, with memory enough: the reader's refusal, or the word where any absent shelf opens
// the names in a word.
pub(crate) fn work_out(
    bundle: &[u8],
    names: u32,
    question: Question,
    sure: &mut [u32],
    possible: &mut [u32],
    slip: &mut [u8],
) -> Result<Answer, Refusal<u16>>
    requires { (question_wrong (entities_of bundle.now) (names_of bundle.now) question ≡ false)
        × (lent_wrong (lent sure.old possible.old slip.old) ≡ false) }
    ensures { PromiseWith (open_names names bundle.now) bundle.now question
        (lent sure.old possible.old slip.old)
        (lent sure.new possible.new slip.new) (outcome_of result) }
{
    let filled = fill_opening(bundle, names, sure, possible)?;
    let answer = conclude(
        bundle,
        filled.sizes,
        filled.rounds,
        question,
        sure,
        possible,
        slip,
    );
    Ok(answer)
}
