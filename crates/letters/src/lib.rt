// Letters: credentials as lines of text, read into records of twelve bytes and written from them. Both calls are total; they answer a number
// of bytes or a refusal, and a refused call touches nothing.
#![tactic(auto)]

ghost use Rattle.std.specs.Prelude.{◌≡◌};
ghost use Rattle.letters.specs.Rows.{out_of_range};

use base::outside;
use bundle::edition::Edition;
use writer::judge::Most;

pub mod read;
pub mod write;

// Whether there are no entities or too many, or no role names or too many. Both calls refuse that.
pub(crate) fn out_of_range(entities: usize, names: usize) -> bool
    ensures { result ≡ out_of_range entities names }
{
    outside(Most::ENTITIES, entities) | outside(Edition::MOST_NAMES, names)
}
