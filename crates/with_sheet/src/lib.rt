// The search and the tables of a bundle with a sheet of storage types. They are those without a sheet, where further roles are open; a wrong
// sheet is refused after the bundle's own refusals.
#![tactic(auto)]

ghost use Rattle.std.specs.Prelude.{◌≡◌};
ghost use Rattle.answers.specs.Answer.{outcome_of};
ghost use Rattle.tables.specs.Promise.{tables};
ghost use Rattle.search.specs.Promise.{lent};
ghost use Rattle.bundle.specs.Edition.{most_names};
ghost use Rattle.with_sheet.specs.Open.{loose_word};
ghost use Rattle.with_sheet.specs.Promise.{SheetTables, SheetSearch};

use answers::Answer;
use base::refusal::{Cause, Refusal};
use bundle::edition::Edition;
use bundle::question::Question;
use bundle::read::{read, sizes_of};
use search::search_opening;
use sheet::{code_of, right};
use tables::{Filled, fill_opening};

// The names that a sheet gives code 1 or 2, one bit each.
fn loose_names(sheet: &[u8]) -> u32
    ensures { result ≡ loose_word sheet.now most_names }
{
    let mut names: u32 = 0;
    for i in 0..Edition::MOST_NAMES {
        let code = code_of(sheet, i + 1);
        if (code == 1) | (code == 2) {
            names |= 1 << i;
        }
    }
    names
}

// The tables of a bundle with a sheet, in all lent words.
pub fn fill_with_sheet(
    bundle: &[u8],
    sheet: &[u8],
    sure: &mut [u32],
    possible: &mut [u32],
) -> Result<Filled, Refusal<u16>>
    ensures { SheetTables bundle.now sheet.now (tables sure.old possible.old)
        (tables sure.new possible.new) result }
{
    let sizes = sizes_of(bundle);
    if right(sheet, sizes.names) {
        return fill_opening(bundle, loose_names(sheet), sure, possible);
    }
    read(bundle)?;
    Err(Cause::Sheet.at(0))
}

// The answer to every bundle, sheet, question and memory.
pub fn search_with_sheet(
    bundle: &[u8],
    sheet: &[u8],
    question: Question,
    sure: &mut [u32],
    possible: &mut [u32],
    slip: &mut [u8],
) -> Result<Answer, Refusal<u16>>
    ensures { SheetSearch bundle.now sheet.now question
        (lent sure.old possible.old slip.old)
        (lent sure.new possible.new slip.new) (outcome_of result) }
{
    let sizes = sizes_of(bundle);
    if right(sheet, sizes.names) {
        return search_opening(bundle, loose_names(sheet), question, sure, possible, slip);
    }
    read(bundle)?;
    Err(Cause::Sheet.at(0))
}
