// A new bundle, from E, R, the marks and a list of records one after the other.
ghost use Rattle.writer.specs.Promise.{Writes};

use crate::fill::fill;
use crate::judge::judge_write;
use base::refusal::Refusal;

// Writes a new bundle at the front of a buffer: its length.
pub fn write(
    entities: u8,
    names: u8,
    marks: &[u8],
    records: &[u8],
    bundle: &mut [u8],
) -> Result<usize, Refusal<usize>>
    ensures { Writes entities names marks.now records.now bundle.old result bundle.new }
{
    let length = judge_write(
        entities as usize,
        names as usize,
        marks,
        records,
        bundle.len(),
    )?;
    fill(entities, names, marks, records, bundle);
    Ok(length)
}
