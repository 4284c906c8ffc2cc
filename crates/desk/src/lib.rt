// What the desk's two programs have in common: what is said of an answer of the writer or of letters.
#![tactic(auto)]

ghost use Rattle.std.specs.Prelude.{◌≡◌, min};
ghost use Rattle.listed.specs.Listing.{Tells};
ghost use Rattle.desk.specs.Answer.{most_place, listed_as};

use base::refusal::Refusal;
use listed::Listing;

// A place as far as a line says it.
fn said_place(place: usize) -> u16
    ensures { result ≡ min most_place place }
{
    if place < 65536 { place as u16 } else { 65535 }
}

// An answer of the writer or of letters, as that of a list.
fn listed_as(wrote: Result<usize, Refusal<usize>>) -> Result<usize, Refusal<u16>>
    ensures { result ≡ listed_as wrote }
{
    wrote.map_err(|refused| Refusal {
        number: refused.number,
        place: said_place(refused.place),
    })
}

// What is said of such an answer: the bytes that it left, or the line of its refusal.
pub fn listing_of(wrote: Result<usize, Refusal<usize>>) -> Listing
    ensures { Tells (listed_as wrote) result }
{
    listed::listing_of(listed_as(wrote))
}
