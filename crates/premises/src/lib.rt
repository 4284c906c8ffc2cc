// The lines of a slip: the number of a fact, the premises of a line, and the writing of one line.
#![tactic(auto)]

pub mod fact;
pub mod line;
pub mod premise;
