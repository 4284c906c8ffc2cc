// The checker: whether a slip shows, over a bundle's credentials, what it is said to show.
#![tactic(auto)]

pub mod check;
pub mod claim;
pub mod line;
