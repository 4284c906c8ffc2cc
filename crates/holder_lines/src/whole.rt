// The lines of all records, and the last line.
ghost use Rattle.std.specs.Prelude.{◌≤◌};
ghost use Rattle.text.specs.Written.{Wrote};
ghost use Rattle.holder_lines.specs.Text.{said_in, holders_text};
ghost use Rattle.holder_lines.specs.Sizes.{most_records};

use crate::line::{well_one, write_line};
use lines::line::{Tally, end_line};
use storage::stored;

// The text of the first so many records.
pub(crate) fn write_lines(bundle: &[u8], sheet: &[u8], records: usize, text: &mut [u8]) -> usize
    requires { records ≤ most_records }
    ensures { Wrote text.old 0 (holders_text (said_in bundle.now sheet.now) records) text.new result }
{
    let mut next = 0;
    let mut well: u16 = 0;
    for i in 0..records {
        let said = stored(bundle, sheet, i + 1);
        next = write_line(text, next, (i + 1) as u16, said);
        well += well_one(said);
    }
    let ill = records as u16 - well;
    let tally = Tally {
        next,
        sure: well,
        maybe: ill,
    };
    end_line(text, tally)
}
