// A slip while it is written, for the laws in specs/ and proofs/; the functions that write it are the search's.
#![tactic(auto)]

// What a record gives over so many entities: the record's number, the first fact of its head, and the word.
#[derive(Clone, Copy)]
pub struct Given {
    pub entities: usize,
    pub number: usize,
    pub first: usize,
    pub word: u32,
}
