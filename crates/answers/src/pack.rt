// An answer as one number of 64 bits, for callers that take no struct.
ghost use Rattle.answers.specs.Answer.{outcome_of};
ghost use Rattle.answers.specs.Pack.{Packs};

use crate::Answer;
use base::refusal::Refusal;

// The five parts of an outcome side by side: number in bits 56 to 63, place in 40 to 55, verdict in 32 to 39, rounds in 16 to 31
// and lines in 0 to 15.
pub fn pack(number: u8, place: u16, verdict: u8, rounds: u16, lines: u16) -> u64
    ensures { Packs (record { number = number; place = place; verdict = verdict; rounds = rounds; lines = lines }) result }
{
    ((number as u64) << 56)
        + ((place as u64) << 40)
        + ((verdict as u64) << 32)
        + ((rounds as u64) << 16)
        + lines as u64
}

// The packed number of an answer, or of a refusal.
pub fn pack_answer(answer: Result<Answer, Refusal<u16>>) -> u64
    ensures { Packs (outcome_of answer) result }
{
    match answer {
        Ok(answer) => match answer {
            Answer::Yes { rounds, lines } => pack(0, 0, 1, rounds, lines),
            Answer::No { rounds } => pack(0, 0, 2, rounds, 0),
            Answer::Unsure { rounds } => pack(0, 0, 3, rounds, 0),
        },
        Err(refused) => pack(refused.number, refused.place, 0, 0, 0),
    }
}
