// The editions of a bundle: the number in byte 0, which follows from the number of role names.
ghost use Rattle.std.specs.Prelude.{◌≡◌, ◌<◌};
ghost use Rattle.bundle.specs.Edition.{edition_for};

// The editions, and the most role names of the first and of any.
#[derive(Drop)]
pub struct Edition;

impl Edition {
    pub const FIRST: u8 = 1;

    pub const SECOND: u8 = 2;

    pub const FIRST_NAMES: usize = 16;

    pub const MOST_NAMES: usize = 32;
}

// The edition of a bundle over so many role names.
pub fn edition_for(names: usize) -> u8
    ensures { result ≡ edition_for names }
{
    if names <= Edition::FIRST_NAMES {
        Edition::FIRST
    } else {
        Edition::SECOND
    }
}
