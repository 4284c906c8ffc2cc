// Lists for the keepers: all members of a role, and all roles of a person, each as one text. The tables are filled once, and the text is
// written in one pass over them.
#![tactic(auto)]

ghost use Rattle.rt0.specs.Credential.{◌·◌};
ghost use Rattle.bundle.specs.Rows.{Accepts};
ghost use Rattle.bundle.specs.Held.{holding_in};
ghost use Rattle.lists.specs.Promise.{MembersPromise, RolesPromise};
ghost use Rattle.lists.specs.Shown.{TablesOf};

use base::outside;
use base::refusal::{Cause, Refusal};
use bundle::read::Sizes;
use lines::Room;
use lines::members::write_members;
use lines::roles::write_roles;
use tables::fill;
use words::table::{Table, word};

// The members of a role by the tables of an accepted bundle, or 7, or 8.
fn list_members(
    bundle: &[u8],
    sizes: Sizes,
    entity: usize,
    name: usize,
    sure: &[u32],
    possible: &[u32],
    text: &mut [u8],
) -> Result<usize, Refusal<u16>>
    requires { Accepts bundle.now sizes × TablesOf (holding_in bundle.now) sure.now possible.now }
    ensures { MembersPromise bundle.now (entity · name) text.old text.new result }
{
    if outside(sizes.entities, entity) | outside(sizes.names, name) {
        return Err(Cause::Question.at(0));
    }
    if text.len() < Room::MEMBERS {
        return Err(Cause::Memory.at(0));
    }
    Ok(write_members(word(sure, entity, name), word(possible, entity, name), text))
}

// All members of a role: the number of bytes of their text, which stands at the front of the lent memory; or the reader's refusal, 7 for what
// is asked, or 8 where the memory is too short.
pub fn members(bundle: &[u8], entity: u8, name: u8, text: &mut [u8]) -> Result<usize, Refusal<u16>>
    ensures { MembersPromise bundle.now (entity · name) text.old text.new result }
{
    let mut sure = [0u32; Table::WORDS];
    let mut possible = [0u32; Table::WORDS];
    let filled = fill(bundle, &mut sure, &mut possible)?;
    list_members(
        bundle,
        filled.sizes,
        entity as usize,
        name as usize,
        &sure,
        &possible,
        text,
    )
}

// The roles of a person by the tables of an accepted bundle, or 7, or 8.
// Beside list_members and not one generic function with it: all that differs, test, room and text, would be a trait longer than the two.
fn list_roles(
    bundle: &[u8],
    sizes: Sizes,
    person: usize,
    sure: &[u32],
    possible: &[u32],
    text: &mut [u8],
) -> Result<usize, Refusal<u16>>
    requires { Accepts bundle.now sizes × TablesOf (holding_in bundle.now) sure.now possible.now }
    ensures { RolesPromise bundle.now person text.old text.new result }
{
    if outside(sizes.entities, person) {
        return Err(Cause::Question.at(0));
    }
    if text.len() < Room::ROLES {
        return Err(Cause::Memory.at(0));
    }
    Ok(write_roles(sure, possible, person - 1, text))
}

// All roles of a person, likewise.
pub fn roles(bundle: &[u8], person: u8, text: &mut [u8]) -> Result<usize, Refusal<u16>>
    ensures { RolesPromise bundle.now person text.old text.new result }
{
    let mut sure = [0u32; Table::WORDS];
    let mut possible = [0u32; Table::WORDS];
    let filled = fill(bundle, &mut sure, &mut possible)?;
    list_roles(
        bundle,
        filled.sizes,
        person as usize,
        &sure,
        &possible,
        text,
    )
}
