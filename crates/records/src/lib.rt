// A record of twelve bytes: the record by its form, and what is wrong with it over so many entities and role names. Both are total: a byte
// that a slice does not have reads as 0, and bytes behind the twelve are not looked at.
#![tactic(auto)]

pub mod form;
pub mod mistake;
