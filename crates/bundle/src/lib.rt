// The bundle reader: from any bytes to an answer; and the marks and records of a bundle, and a question's range, for the crates above.
#![tactic(auto)]

pub mod access;
pub mod checks;
pub mod edition;
pub mod layout;
pub mod question;
pub mod read;
pub mod stored;
