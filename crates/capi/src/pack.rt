// The answers of the tables, of the writer and of the holders, each as one number of 64 bits.
ghost use Rattle.std.specs.Prelude.{◌^◌, ◌<◌, ◌≡◌};
ghost use Rattle.answers.specs.Pack.{Packs};
ghost use Rattle.capi.specs.Packed.{filled_outcome};
ghost use Rattle.capi.specs.Written.{packed_numbers, PacksWrote};
ghost use Rattle.capi.specs.Holders.{packed_storage};

use answers::pack::pack;
use base::refusal::Refusal;
use tables::Filled;

// The packed number of what filling the tables answers.
pub(crate) fn pack_filled(filled: Result<Filled, Refusal<u16>>) -> u64
    ensures { Packs (filled_outcome filled) result }
{
    match filled {
        Ok(filled) => pack(0, 0, 0, filled.rounds, 0),
        Err(refused) => pack(refused.number, refused.place, 0, 0, 0),
    }
}

// A number in bits 56 to 63, and below it another modulo 2^56.
fn pack_below(number: u8, below: usize) -> u64
    ensures { (result ≡ packed_numbers number below) × (number < 2 ^ 8) }
{
    ((number as u64) << 56) + below as u64 % (1 << 56)
}

// The packed number of the writer's answer.
pub(crate) fn pack_wrote(answer: Result<usize, Refusal<usize>>) -> u64
    ensures { PacksWrote answer result }
{
    match answer {
        Ok(length) => pack_below(0, length),
        Err(refused) => pack_below(refused.number, refused.place),
    }
}

// The packed number of what is said of a record: a word of shelves fills the bits of two parts.
pub(crate) fn pack_storage(answer: Result<Option<u32>, Refusal<u16>>) -> u64
    ensures { result ≡ packed_storage answer }
{
    match answer {
        Ok(said) => match said {
            Some(shelves) => {
                let high = shelves / 65536;
                let low = shelves % 65536;
                pack(0, 0, 1, high as u16, low as u16)
            }
            None => pack(0, 0, 0, 0, 0),
        },
        Err(refused) => pack(refused.number, refused.place, 0, 0, 0),
    }
}
