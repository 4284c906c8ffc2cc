// A refusal: why, as the number that the tables of refusals give, and where.
ghost use Rattle.std.specs.Prelude.{◌≡◌, ◌<◌};
ghost use Rattle.base.specs.Cause.{number_for};

// Why something is refused, in the order of the numbers.
#[derive(Clone, Copy, Debug, PartialEq, Eq)]
pub enum Cause {
    // A length is wrong: of a bundle, of a list of records, or of one record.
    Length,
    // The checks of blocks differ.
    Checks,
    // Block 0 breaks its layout; or E, R or the marks are wrong.
    Layout,
    // The number of blocks does not fit N.
    BlockCount,
    // The bytes beside the records of a block are wrong.
    Beside,
    // The form of a record is not 1 to 4.
    UnknownForm,
    // An intersection has neither two nor three parts.
    NumberOfParts,
    // An entity is not among those of the bundle.
    EntityOutOfRange,
    // A role name is not among those of the bundle.
    NameOutOfRange,
    // A byte that the form of a record does not use is not zero.
    ByteNotZero,
    // What is asked is out of range.
    Question,
    // Lent memory is too short for the answer.
    Memory,
    // The length of a slip is wrong.
    SlipLength,
    // A line of a slip is wrong.
    Line,
    // The last line of a slip states another fact.
    Fact,
    // There are more records than a bundle has.
    TooMany,
    // A buffer is too short for what would be written.
    Room,
    // A line of a letter is wrong.
    Letter,
    // A sheet is not right.
    Sheet,
}

// A refusal: the number of the first row that applies, and its place.
#[derive(Clone, Copy, Debug, PartialEq, Eq)]
pub struct Refusal<Place> {
    pub number: u8,
    pub place: Place,
}

impl From<Cause> for u8 {
    ghost from_gives = { λ c n. n ≡ number_for c };

    fn from(cause: Cause) -> u8 {
        match cause {
            Cause::Length => 1,
            Cause::Checks => 2,
            Cause::Layout => 3,
            Cause::BlockCount => 4,
            Cause::Beside => 5,
            Cause::UnknownForm => 61,
            Cause::NumberOfParts => 62,
            Cause::EntityOutOfRange => 63,
            Cause::NameOutOfRange => 64,
            Cause::ByteNotZero => 65,
            Cause::Question => 7,
            Cause::Memory => 8,
            Cause::SlipLength => 9,
            Cause::Line => 10,
            Cause::Fact => 11,
            Cause::TooMany => 12,
            Cause::Room => 13,
            Cause::Letter => 14,
            Cause::Sheet => 15,
        }
    }
}

impl From<Refusal<u16>> for Refusal<usize> {
    ghost from_gives = { λ narrow wide. (wide.number ≡ narrow.number) × (wide.place ≡ narrow.place) };

    fn from(refusal: Refusal<u16>) -> Refusal<usize> {
        Refusal {
            number: refusal.number,
            place: usize::from(refusal.place),
        }
    }
}

impl Cause {
    // The refusal for it at a place.
    pub fn at<Place>(self, place: Place) -> Refusal<Place>
        ensures { result ≡ record { number = number_for self; place = place } }
    {
        Refusal {
            number: u8::from(self),
            place,
        }
    }
}
