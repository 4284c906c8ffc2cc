// The text of a list: a line for each person in a role's two words, or for each role in one bit of two tables, written in one pass into lent
// memory, and how much memory that takes.
#![tactic(auto)]

use words::table::Table;

pub mod line;
pub mod members;
pub mod roles;
pub mod word;

// How many bytes are to be lent for a text.
#[derive(Drop)]
pub struct Room;

impl Room {
    // The digits of the greatest entity or role name.
    const NUMBER: usize = 2;

    // The digits of the greatest number of 16 bits, in which the lines are counted.
    const COUNT: usize = 5;

    // The bytes of ` MAYBE` and a newline.
    const MARK: usize = 7;

    const MEMBER_LINE: usize = Room::NUMBER + Room::MARK;

    const ROLE_LINE: usize = Room::NUMBER + 1 + Room::NUMBER + Room::MARK;

    const END_LINE: usize = 4 + Room::COUNT + 1 + Room::COUNT + 1;

    // For the members of a role: a line for each entity, and the last one.
    pub const MEMBERS: usize = Table::ENTITIES * Room::MEMBER_LINE + Room::END_LINE;

    // For the roles of a person: a line for each word of a table, and the last one.
    pub const ROLES: usize = Table::WORDS * Room::ROLE_LINE + Room::END_LINE;
}
