// A question: is the person in the role of the entity with the name? And whether it is out of range.
ghost use Rattle.std.specs.Prelude.{◌≡◌};
ghost use Rattle.bundle.specs.Question.{question_wrong};

use base::outside;

#[derive(Clone, Copy)]
pub struct Question {
    pub person: usize,
    pub entity: usize,
    pub name: usize,
}

// Whether a question is out of range over so many entities and names.
pub fn question_wrong(entities: usize, names: usize, question: Question) -> bool
    ensures { result ≡ question_wrong entities names question }
{
    outside(entities, question.person)
        | outside(entities, question.entity)
        | outside(names, question.name)
}
