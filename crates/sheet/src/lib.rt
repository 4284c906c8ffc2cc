// A sheet of storage types: whether one block of bytes is right over so many role names, and the code that it says of a name. Both answer at
// every slice. Its check and its sizes and places are those of a block.
#![tactic(auto)]

ghost use Rattle.std.specs.Prelude.{◌≡◌, true, ◌↔◌, ◌<◌};
ghost use Rattle.base.specs.Byte.{byte_at};
ghost use Rattle.sheet.specs.Sheet.{RightSheet, code_of};
ghost use Rattle.sheet.specs.Wrong.{sheet_byte_wrong, layout_wrong};

use base::{byte, outside};
use block::{Block, check_differs};

// What a sheet has besides a block: the most that a code is, and its number.
#[derive(Drop)]
pub struct Sheet;

impl Sheet {
    pub const CODES: usize = 6;

    pub const NUMBER: usize = 100;
}

// Whether byte i of a sheet of so many names is wrong.
fn byte_wrong(sheet: &[u8], names: usize, i: usize) -> bool
    ensures { result ≡ sheet_byte_wrong names i (byte_at sheet.now i) }
{
    let b = byte(sheet, i);
    ((i < names) & outside(Sheet::CODES, b))
        | (((names <= i) & (i < Block::NUMBER_PLACE)) & (b != 0))
        | ((i == Block::NUMBER_PLACE) & (b != Sheet::NUMBER))
        | ((i == Block::COUNT_PLACE) & (b != names))
}

// Whether some byte before the check is wrong.
fn layout_wrong(sheet: &[u8], names: usize) -> bool
    ensures { result ≡ layout_wrong names sheet.now }
{
    for i in 0..Block::CHECK_PLACE {
        if byte_wrong(sheet, names, i) {
            return true;
        }
    }
    false
}

// Whether the bytes are a right sheet over so many names.
pub fn right(sheet: &[u8], names: usize) -> bool
    ensures { (result ≡ true) ↔ RightSheet names sheet.now }
{
    !((sheet.len() != Block::SIZE) | check_differs(sheet) | layout_wrong(sheet, names))
}

// The code that a sheet says of a name, 0 where it says none.
pub fn code_of(sheet: &[u8], name: usize) -> usize
    ensures { (result ≡ code_of sheet.now name) × (result < 256) }
{
    if name == 0 {
        return 0;
    }
    byte(sheet, name - 1)
}
