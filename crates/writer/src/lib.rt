// The writer: a bundle's bytes from E, R, the marks and a list of records, and one record more in a bundle that stands in its buffer. Both
// answer a length or a refusal, and a refused call touches nothing.
#![tactic(auto)]

pub mod append;
pub mod fill;
pub mod judge;
pub mod last;
pub mod seal;
pub mod write;
