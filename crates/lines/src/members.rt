// The members of a role as text, in one pass over the bits of the role's two words.
ghost use Rattle.std.specs.Prelude.{◌<◌};
ghost use Rattle.text.specs.Written.{Wrote};
ghost use Rattle.words.specs.Sizes.{most_entities};
ghost use Rattle.lines.specs.Text.{person_text, list_text};
ghost use Rattle.lines.specs.Numbered.{members_up_to};
ghost use Rattle.lines.specs.Passing.{PassesMember};

use crate::line::{Tally, end_line, mark};
use crate::word::has;
use text::number;
use words::table::Table;

// The line of a person, where they are possible.
fn member_line(text: &mut [u8], tally: Tally, person: u16, sure: bool, possible: bool) -> Tally
    requires { (tally.sure < 65535) × (tally.maybe < 65535) }
    ensures { PassesMember person sure possible text.old text.new tally result }
{
    if sure | possible {
        let keyed = number(text, tally.next, person);
        return mark(text, keyed, tally, sure);
    }
    tally
}

// The text of the members in a role's two words.
pub fn write_members(sure: u32, possible: u32, text: &mut [u8]) -> usize
    ensures { Wrote text.old 0 (list_text person_text (members_up_to sure possible most_entities)) text.new result }
{
    let mut tally = Tally::default();
    for i in 0..Table::ENTITIES {
        tally = member_line(text, tally, (i + 1) as u16, has(sure, i), has(possible, i));
    }
    end_line(text, tally)
}
