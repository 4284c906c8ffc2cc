// The words of a table, and what one use of a record gives from them. A record is read once, as a step; the rounds and the slip use steps.
#![tactic(auto)]

pub mod give;
pub mod step;
pub mod table;
