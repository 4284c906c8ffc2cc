// A claim, that a member is in a role: what a line of a slip states, and what a premise has to state.
ghost use Rattle.std.specs.Prelude.{◌≡◌};
ghost use Rattle.rt0.specs.Slip.{◌∋◌, fact_of};
ghost use Rattle.records.specs.Form.{credential_of, role_of};
ghost use Rattle.checker.specs.Premise.{same_fact, member_of};
ghost use Rattle.checker.specs.Claim.{fact_in, pick_claim};

use records::form::{Record, Role, head_of};

// That a member is in a role.
#[derive(Clone, Copy)]
pub struct Claim {
    pub role: Role,
    pub member: usize,
}

// What a line states with this credential and member: that the member is in the credential's head.
pub(crate) fn stated_by(credential: Option<Record>, member: usize) -> Option<Claim>
    ensures { fact_in result ≡ fact_of member (credential_of credential) }
{
    let role = head_of(credential)?;
    Some(Claim { role, member })
}

// Whether a claim is that the member is in the role.
pub(crate) fn same(claim: Option<Claim>, role: Role, member: usize) -> bool
    ensures { result ≡ same_fact (fact_in claim) (role_of role ∋ member) }
{
    match claim {
        Some(claim) => {
            ((claim.role.entity == role.entity) & (claim.role.name == role.name))
                & (claim.member == member)
        }
        None => false,
    }
}

// The member of a claim, or 0.
pub(crate) fn member_of(claim: Option<Claim>) -> usize
    ensures { result ≡ member_of (fact_in claim) }
{
    match claim {
        Some(claim) => claim.member,
        None => 0,
    }
}

// Claim number j of three, counted from 0.
pub(crate) fn pick(
    j: usize,
    first: Option<Claim>,
    second: Option<Claim>,
    third: Option<Claim>,
) -> Option<Claim>
    ensures { result ≡ pick_claim j first second third }
{
    match j {
        0 => first,
        1 => second,
        _ => third,
    }
}
