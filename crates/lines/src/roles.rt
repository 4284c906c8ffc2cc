// The roles of a person as text, in one pass over all words of the two tables.
ghost use Rattle.std.specs.Prelude.{◌<◌};
ghost use Rattle.rt0.specs.Credential.{◌·◌};
ghost use Rattle.text.specs.Written.{Wrote};
ghost use Rattle.words.specs.Sizes.{table_words};
ghost use Rattle.lines.specs.Text.{role_text, list_text};
ghost use Rattle.lines.specs.Numbered.{roles_up_to};
ghost use Rattle.lines.specs.Passing.{PassesRole};

use crate::line::{Tally, end_line, mark};
use crate::word::{has, word_at};
use text::{number, put};
use words::table::Table;

// The line of a role, where someone is possible in it.
// Beside member_line and not one generic function with it: a trait for the two keys, with an impl for each, would be longer than the two.
fn role_line(
    text: &mut [u8],
    tally: Tally,
    entity: u16,
    name: u16,
    sure: bool,
    possible: bool,
) -> Tally
    requires { (tally.sure < 65535) × (tally.maybe < 65535) }
    ensures { PassesRole (entity · name) sure possible text.old text.new tally result }
{
    if sure | possible {
        let first = number(text, tally.next, entity);
        let spaced = put(text, first, b' ');
        let keyed = number(text, spaced, name);
        return mark(text, keyed, tally, sure);
    }
    tally
}

// The text of the roles whose words have the bit of a number.
pub fn write_roles(sure: &[u32], possible: &[u32], d: usize, text: &mut [u8]) -> usize
    ensures { Wrote text.old 0
        (list_text role_text (roles_up_to sure.now possible.now d table_words)) text.new result }
{
    let mut tally = Tally::default();
    for i in 0..Table::WORDS {
        let entity = (i / Table::NAMES + 1) as u16;
        let name = (i % Table::NAMES + 1) as u16;
        tally = role_line(
            text,
            tally,
            entity,
            name,
            has(word_at(sure, i), d),
            has(word_at(possible, i), d),
        );
    }
    end_line(text, tally)
}
