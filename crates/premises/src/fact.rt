// Facts by number, and the line that states one: an index has the number of the line of each fact, so that none is looked for.
ghost use Rattle.std.specs.Prelude.{◌≡◌};
ghost use Rattle.rt0.specs.Credential.{◌·◌};
ghost use Rattle.records.specs.Form.{role_of};
ghost use Rattle.premises.specs.Fact.{fact_number, line_of};

use base::outside;
use records::form::Role;
use words::table::{Table, place};

// The number of a fact: the member's bit, counted through all words; of nobody it is that of all facts.
pub fn fact_number(entity: usize, name: usize, member: usize) -> usize
    ensures { result ≡ fact_number (entity · name) member }
{
    if outside(Table::ENTITIES, member) {
        return Table::FACTS;
    }
    Table::ENTITIES * place(entity, name) + (member - 1)
}

// The number of the line that states a fact, or 0.
pub(crate) fn line_of(index: &[u16], role: Role, member: usize) -> u16
    ensures { result ≡ line_of index.now (role_of role) member }
{
    let at = fact_number(role.entity, role.name, member);
    index.get(at).copied().unwrap_or(0)
}
