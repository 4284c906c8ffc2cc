// The tables and the lists under plain names, for the benchmark, which is written in C. They are no part of the library for C.
#![tactic(auto)]

ghost use Rattle.std.specs.Prelude.{◌≡◌};
ghost use Rattle.rt0.specs.Credential.{◌·◌};
ghost use Rattle.lists.specs.Promise.{length_of};
ghost use Rattle.tables.specs.Promise.{tables, rounds_of};
ghost use Rattle.timed.specs.Given.{TablesRounds, MembersLength, RolesLength};

use base::refusal::Refusal;
use lists::{members, roles};
use tables::{Filled, fill};

// The rounds of the tables, 0 for a refusal.
#[unsafe(no_mangle)]
pub extern "C" fn timed_tables(bundle: &[u8], sure: &mut [u32], possible: &mut [u32]) -> u64
    ensures { TablesRounds bundle.now (tables sure.old possible.old)
        (tables sure.new possible.new) result }
{
    rounds_of(fill(bundle, sure, possible))
}

// The rounds that an answer says.
fn rounds_of(filled: Result<Filled, Refusal<u16>>) -> u64
    ensures { result ≡ rounds_of filled }
{
    match filled {
        Ok(filled) => filled.rounds as u64,
        Err(_) => 0,
    }
}

// The length that an answer says.
fn length_of(listed: Result<usize, Refusal<u16>>) -> u64
    ensures { result ≡ length_of listed }
{
    match listed {
        Ok(length) => length as u64,
        Err(_) => 0,
    }
}

// The length of the list of a role's members.
#[unsafe(no_mangle)]
pub extern "C" fn timed_members(bundle: &[u8], entity: u8, name: u8, text: &mut [u8]) -> u64
    ensures { MembersLength bundle.now (entity · name) text.old text.new result }
{
    length_of(members(bundle, entity, name, text))
}

// The length of the list of a person's roles.
#[unsafe(no_mangle)]
pub extern "C" fn timed_roles(bundle: &[u8], person: u8, text: &mut [u8]) -> u64
    ensures { RolesLength bundle.now person text.old text.new result }
{
    length_of(roles(bundle, person, text))
}
