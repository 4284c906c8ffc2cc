// The types of credential storage as flags: of a linked role and of an intersection, from those of their names, and the three conditions of
// a structurally well typed credential. What they mean stands in specs/: the type system in the documents' words.
#![tactic(auto)]

ghost use Rattle.std.specs.Prelude.{◌≡◌};
ghost use Rattle.types.specs.Flags.{well_typed, link_traces, both_traces, three_conditions};

// The type of a name or of a body.
#[derive(Clone, Copy)]
pub struct Traces {
    // It is issuer-traces-all.
    pub issuer: bool,
    // It is subject-traces-all.
    pub subject: bool,
    // It is weakly well typed.
    pub weakly: bool,
}

// Whether it is well typed.
pub fn well_typed(one: Traces) -> bool
    ensures { result ≡ well_typed one }
{
    one.issuer | one.subject | one.weakly
}

// The type of a linked role, from those of its two names.
pub fn link(one: Traces, two: Traces) -> Traces
    ensures { result ≡ link_traces one two }
{
    let issuer = one.issuer & two.issuer;
    let subject = one.subject & two.subject;
    let either = (one.issuer & well_typed(two)) | (well_typed(one) & two.subject);
    Traces {
        issuer,
        subject,
        weakly: !issuer & !subject & either,
    }
}

// The type of an intersection, from that of a part and that of the others together.
pub fn both(one: Traces, two: Traces) -> Traces
    ensures { result ≡ both_traces one two }
{
    let well = well_typed(one) & well_typed(two);
    Traces {
        issuer: (one.issuer | two.issuer) & well,
        subject: (one.subject | two.subject) & well,
        weakly: one.weakly & two.weakly,
    }
}

// Whether a head and a body meet the three conditions of a structurally well typed credential.
pub fn three_conditions(head: Traces, body: Traces) -> bool
    ensures { result ≡ three_conditions head body }
{
    let well = well_typed(head) & well_typed(body);
    well & (!head.issuer | body.issuer) & (!head.subject | body.subject)
}
