// One record more, in the bundle that stands in its buffer.
ghost use Rattle.writer.specs.Promise.{Appends};

use crate::judge::judge_append;
use crate::last::put_last;
use base::refusal::Refusal;

// Puts a record last in the bundle of this length at the front of a buffer: the length of the bundle that now stands there.
pub fn append(bundle: &mut [u8], length: usize, record: &[u8]) -> Result<usize, Refusal<usize>>
    ensures { Appends bundle.old length «record».now result bundle.new }
{
    let appended = judge_append(bundle, length, record)?;
    put_last(bundle, record);
    Ok(appended)
}
