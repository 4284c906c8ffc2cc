// The reader of one line: the only record that it can be the line of, and whether it is right. Both are total.
#![tactic(auto)]

pub mod find;
pub mod right;
