// The checker's answer: the reader's refusal, or the question's, or the slip's, or acceptance with the number of lines.
ghost use Rattle.std.specs.Prelude.{◌≡◌, ◌≤◌};
ghost use Rattle.rt0.specs.Sizes.{slip_lines};
ghost use Rattle.base.specs.Lowest.{lowest};
ghost use Rattle.bundle.specs.Held.{book_in};
ghost use Rattle.bundle.specs.Question.{question as ask, role_asked};
ghost use Rattle.checker.specs.Premise.{line_wrong};
ghost use Rattle.checker.specs.Rows.{Checks};
ghost use Rattle.checker.specs.Checking.{check_by, slip_tests};

use crate::claim::same;
use crate::line::{Accepted, Line};
use base::refusal::{Cause, Refusal};
use bundle::question::{Question, question_wrong};
use bundle::read::read;
use records::form::Role;
use rt0::Slip;

impl Accepted<'_> {
    // The first line, counted from 0, that is wrong, whichever premise shows it; or the number of lines.
    fn first_broken(&self, slip: &[u8], lines: usize) -> usize
        requires { lines ≤ slip_lines }
        ensures { result ≡ lowest (line_wrong (book_in self.now.bytes.now) slip.now) lines }
    {
        let mut first = lines;
        'lines: for i in 0..lines {
            for j in 0..Line::PREMISES {
                if self.broken(slip, i, j) {
                    first = i;
                    break 'lines;
                }
            }
        }
        first
    }

    // The answer for a question in range: the number of the slip's lines, if it shows what is asked.
    fn check_slip(&self, question: Question, slip: &[u8]) -> Result<u16, Refusal<u16>>
        ensures { result ≡ check_by slip.now
            (slip_tests (book_in self.now.bytes.now) (role_asked question) question.person slip.now) }
    {
        let size = slip.len();
        if (size == 0) | (Line::SIZE * Slip::LINES < size) | (size % Line::SIZE != 0) {
            return Err(Cause::SlipLength.at(0));
        }
        let lines = size / Line::SIZE;
        let i = self.first_broken(slip, lines);
        if i < lines {
            return Err(Cause::Line.at((i + 1) as u16));
        }
        let last = self.stated(slip, lines, lines);
        let role = Role {
            entity: question.entity,
            name: question.name,
        };
        if !same(last, role, question.person) {
            return Err(Cause::Fact.at(0));
        }
        Ok(lines as u16)
    }
}

// The answer to every bundle, question and slip: the number of lines, where every line is right and the last states the question's fact.
pub fn check(bundle: &[u8], d: u8, a: u8, r: u8, slip: &[u8]) -> Result<u16, Refusal<u16>>
    ensures { Checks bundle.now (ask d a r) slip.now result }
{
    let sizes = read(bundle)?;
    let accepted = Accepted {
        bytes: bundle,
        sizes,
    };
    let question = Question {
        person: d as usize,
        entity: a as usize,
        name: r as usize,
    };
    if question_wrong(sizes.entities, sizes.names, question) {
        return Err(Cause::Question.at(0));
    }
    accepted.check_slip(question, slip)
}
