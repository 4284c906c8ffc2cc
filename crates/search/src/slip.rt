// The slip: the rounds over again, with a line for each fact that a record adds, up to the fact in question.
ghost use Rattle.std.specs.Prelude.{◌≡◌, ◌+◌, ◌<◌, ◌≤◌, length};
ghost use Rattle.rt0.specs.Membership.{Member};
ghost use Rattle.rt0.specs.Table.{Rounds};
ghost use Rattle.rt0.specs.Word.{bit, round_words, times_words};
ghost use Rattle.rt0.specs.Sizes.{slip_bytes};
ghost use Rattle.bundle.specs.Layout.{records_of};
ghost use Rattle.bundle.specs.Access.{record_of};
ghost use Rattle.bundle.specs.Held.{held, book_in};
ghost use Rattle.bundle.specs.Question.{role_asked, Asked};
ghost use Rattle.words.specs.Sizes.{most_entities, width, table_words};
ghost use Rattle.words.specs.Give.{use_record};
ghost use Rattle.premises.specs.Fact.{HasFact, Backed};
ghost use Rattle.ledger.specs.Writing.{Writing, IsRecord, HasSteps, IsGiven, AtMostOneMore};
ghost use Rattle.ledger.specs.Writing.{Unsaid, Progress, AllStated, Finished};
ghost use Rattle.search.specs.Written.{Written};

use bundle::access::record_at;
use bundle::question::Question;
use bundle::read::Sizes;
use ledger::Given;
use premises::fact::fact_number;
use premises::line::write_line;
use words::give::gain;
use words::step::{Step, write_steps};
use words::table::{Table, copy};

// A record's turn: its number, the fact in question, and the lines so far.
#[derive(Clone, Copy)]
pub struct Turn {
    pub number: usize,
    pub goal: usize,
    pub lines: usize,
}

// One more line, that entity i + 1 is in the head of a record, if the record gives it and the fact has no line yet.
fn state(
    bundle: &[u8],
    words: &[u32],
    given: Given,
    i: usize,
    index: &mut [u16],
    slip: &mut [u8],
    lines: usize,
) -> usize
    requires { Writing bundle.now given.entities words.now index.old slip.old lines
        × IsGiven bundle.now words.now given × (i < most_entities) }
    ensures { AtMostOneMore bundle.now index.old slip.old lines
        (given.first + i) (bit given.word i) index.new slip.new result }
{
    if (given.word >> i) % 2 == 0 {
        return lines;
    }
    let at = given.first + i;
    if index[at] != 0 {
        return lines;
    }
    let record = record_at(bundle, given.number);
    write_line(
        words,
        index,
        record,
        given.number as u8,
        (i + 1) as u8,
        slip,
        lines,
    );
    index[at] = (lines + 1) as u16;
    lines + 1
}

// A line for each member that the record gives and whose fact has no line yet, up to the fact in question.
fn state_members(
    bundle: &[u8],
    words: &[u32],
    given: Given,
    goal: usize,
    index: &mut [u16],
    slip: &mut [u8],
    lines: usize,
) -> usize
    requires { Writing bundle.now given.entities words.now index.old slip.old lines
        × IsGiven bundle.now words.now given × Unsaid index.old goal }
    ensures { Progress (book_in bundle.now) index.old slip.old lines goal
        index.new slip.new result (AllStated index.new given.first given.word most_entities) }
{
    let mut count = lines;
    for i in 0..Table::ENTITIES {
        count = state(bundle, words, given, i, index, slip, count);
        if index[goal] != 0 {
            return count;
        }
    }
    count
}

// A record's use: what it gives from the words goes into the words said, and each new fact gets a line.
fn use_record(
    bundle: &[u8],
    steps: &[usize],
    entities: usize,
    words: &[u32],
    turn: Turn,
    said: &mut [u32],
    index: &mut [u16],
    slip: &mut [u8],
) -> usize
    requires { Writing bundle.now entities words.now index.old slip.old turn.lines
        × IsRecord bundle.now turn.number × HasSteps bundle.now steps.now × (length said.old ≡ table_words)
        × Backed said.old index.old × Unsaid index.old turn.goal }
    ensures { (said.new ≡ use_record entities words.now said.old
        (record_of bundle.now turn.number))
        × Progress (book_in bundle.now) index.old slip.old turn.lines turn.goal
        index.new slip.new result (Backed said.new index.new) }
{
    let gained = gain(steps[turn.number - 1], words, entities);
    let at = gained.place;
    let word = gained.word;
    let before = said[at];
    let after = before | word;
    said[at] = after;
    if after == before {
        return turn.lines;
    }
    let given = Given {
        entities,
        number: turn.number,
        first: Table::ENTITIES * at,
        word,
    };
    state_members(bundle, words, given, turn.goal, index, slip, turn.lines)
}

// One round: each record's use on the words said at its start.
fn one_round(
    bundle: &[u8],
    steps: &[usize],
    sizes: Sizes,
    goal: usize,
    said: &mut [u32],
    index: &mut [u16],
    slip: &mut [u8],
    lines: usize,
) -> usize
    requires { Writing bundle.now sizes.entities said.old index.old slip.old lines
        × (sizes.records ≡ records_of bundle.now) × HasSteps bundle.now steps.now × Unsaid index.old goal }
    ensures { Progress (book_in bundle.now) index.old slip.old lines goal
        index.new slip.new result
        ((said.new ≡ round_words sizes.entities width (held bundle.now) said.old)
        × Backed said.new index.new) }
{
    let mut words = [0u32; Table::WORDS];
    copy(said, &mut words);
    let mut count = lines;
    for n in 0..sizes.records {
        let turn = Turn {
            number: n + 1,
            goal,
            lines: count,
        };
        count = use_record(
            bundle,
            steps,
            sizes.entities,
            &words,
            turn,
            said,
            index,
            slip,
        );
        if index[goal] != 0 {
            return count;
        }
    }
    count
}

// Round after round until the fact in question has a line, which is then the last.
fn write_rounds(
    bundle: &[u8],
    steps: &[usize],
    sizes: Sizes,
    rounds: usize,
    goal: usize,
    said: &mut [u32],
    index: &mut [u16],
    slip: &mut [u8],
) -> usize
    requires { Writing bundle.now sizes.entities said.old index.old slip.old 0
        × (sizes.records ≡ records_of bundle.now) × HasSteps bundle.now steps.now × Unsaid index.old goal
        × HasFact (times_words sizes.entities width (held bundle.now) rounds said.old) goal }
    ensures { Finished (book_in bundle.now) slip.old goal index.new slip.new result }
{
    let mut count: usize = 0;
    for _round in 0..rounds {
        count = one_round(bundle, steps, sizes, goal, said, index, slip, count);
        if index[goal] != 0 {
            return count;
        }
    }
    count
}

// The slip for a question whose answer is YES, where so many rounds are enough; the number of its lines.
pub(crate) fn write_slip(
    bundle: &[u8],
    sizes: Sizes,
    rounds: usize,
    question: Question,
    slip: &mut [u8],
) -> usize
    requires { Asked bundle.now sizes question × (slip_bytes ≤ length slip.old) × Rounds (held bundle.now) rounds
        × Member (held bundle.now) (role_asked question) question.person }
    ensures { Written (book_in bundle.now) (role_asked question) question.person
        slip.old result slip.new }
{
    let mut said = [0u32; Table::WORDS];
    let mut index = [0u16; Table::FACTS];
    let goal = fact_number(question.entity, question.name, question.person);
    let mut steps = [0usize; Step::MOST];
    write_steps(bundle, &mut steps);
    write_rounds(
        bundle, &steps, sizes, rounds, goal, &mut said, &mut index, slip,
    )
}
