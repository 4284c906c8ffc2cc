// What the search answers, and the forms in which it leaves the library: the line of the program `ask` and one packed number.
#![tactic(auto)]

pub mod line;
pub mod pack;

// The answer of the search to a question that is not refused.
#[derive(Clone, Copy)]
pub enum Answer {
    // The person is a member; a slip of so many lines says why.
    Yes { rounds: u16, lines: u16 },
    // No completion makes the person a member.
    No { rounds: u16 },
    // Neither.
    Unsure { rounds: u16 },
}
