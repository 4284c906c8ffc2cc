// The program `ask_with_sheet`: one question from standard input, three bytes, then a sheet and then a bundle, and one line as the answer.
//
// Its buffer has room for the longest question. So input that is longer than the buffer is refused for its length, and never cut to a
// question. Where standard input cannot be read to its end it prints no answer, but a message on standard error.
#![tactic(auto)]

ghost use Rattle.answers.specs.Answer.{outcome_of};
ghost use Rattle.search.specs.Promise.{lent};
ghost use Rattle.search.specs.Enough.{Enough};
ghost use Rattle.with_sheet.specs.Promise.{SheetSearch};
ghost use Rattle.said.specs.Said.{HoldsAllowed, Rightly};
ghost use Rattle.asked.specs.Input.{question_of};
ghost use Rattle.ask_with_sheet.specs.Input.{longest_input, sheet_of, bundle_of};
ghost use Rattle.ask_with_sheet.specs.Prints.{Prints, unreadable};
ghost use Rattle.ask_with_sheet.specs.Longer.{prints_longer};

use answers::Answer;
use answers::line::{Text, line, message, refusal};
use asked::bundle_start;
use base::byte;
use base::refusal::Refusal;
use bundle::question::Question;
use input::{Failed, Input, fill};
use rt0::Slip;
use said::{Program, Said, say, write_text};
use std::io::{Read, Write};
use with_sheet::search_with_sheet;
use words::table::Table;

// The bytes before the bundle.
#[derive(Drop)]
struct Front;

impl Front {
    // The person, the entity and the role name.
    const QUESTION: usize = 3;

    // The same and the sheet.
    const BYTES: usize = 515;
}

// The memory of the program.
#[derive(Drop)]
struct Memory;

impl Memory {
    // The bytes of the buffer for standard input.
    const BUFFER: usize = 4608;
}

// The answer to the bytes of a question: the person, the entity, the role name, then the sheet, then the bundle.
fn ask(
    input: &[u8],
    sure: &mut [u32],
    possible: &mut [u32],
    slip: &mut [u8],
) -> Result<Answer, Refusal<u16>>
    ensures { SheetSearch (bundle_of input.now) (sheet_of input.now) (question_of input.now)
        (lent sure.old possible.old slip.old)
        (lent sure.new possible.new slip.new) (outcome_of result) }
{
    let question = Question {
        person: byte(input, 0),
        entity: byte(input, 1),
        name: byte(input, 2),
    };
    let sheet = bundle_start(Front::QUESTION, input.len());
    let bundle = bundle_start(Front::BYTES, input.len());
    search_with_sheet(
        &input[bundle..],
        &input[sheet..bundle],
        question,
        sure,
        possible,
        slip,
    )
}

// The line of the answer, found with enough lent memory.
fn line_with(input: &[u8], sure: &mut [u32], possible: &mut [u32], slip: &mut [u8]) -> Text
    requires { Enough (lent sure.old possible.old slip.old) }
    ensures { HoldsAllowed (Prints input.now) result }
{
    let answer = ask(input, sure, possible, slip);
    line(answer)
}

// The line of the answer to these bytes.
fn line_for(input: &[u8]) -> Text
    ensures { HoldsAllowed (Prints input.now) result }
{
    let mut sure = [0u32; Table::WORDS];
    let mut possible = [0u32; Table::WORDS];
    let mut slip = [0u8; Slip::BYTES];
    line_with(input, &mut sure, &mut possible, &mut slip)
}

// The program, as one of those that answer with one text.
struct App;

impl Program for App {
    ghost prints = { Prints };

    ghost unreadable = { unreadable };

    ghost longest = { longest_input };

    fn line_for(&self, input: &[u8]) -> Text {
        line_for(input)
    }

    fn longer(&self) -> Text {
        refusal(1, 0)
    }

    fn problem(&self) -> Text {
        message(b"ask_with_sheet: standard input cannot be read to its end\n")
    }

    ghost prints_longer = { prints_longer };
}

// Writes what is rightly said of the buffer.
fn write<O: Write, E: Write>(
    stdout: &mut O,
    stderr: &mut E,
    said: Said,
    got: Result<Input, Failed>,
    buffer: &[u8],
)
    requires { Rightly Prints unreadable got buffer.now said }
{
    write_text(stdout, said.out);
    write_text(stderr, said.problem);
}

// The program, over any reader and writers.
fn run<I: Read, O: Write, E: Write>(stdin: &mut I, stdout: &mut O, stderr: &mut E) {
    let mut buffer = [0u8; Memory::BUFFER];
    let got = fill(stdin, &mut buffer);
    let said = say(&App, got, &buffer);
    write(stdout, stderr, said, got, &buffer);
}

fn main(rt: HostRuntime) {
    run(&mut rt.stdin(), &mut rt.stdout(), &mut rt.stderr());
}
