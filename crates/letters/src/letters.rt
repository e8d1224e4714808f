// A way and a kind by their letters on a sheet.
ghost use Rattle.std.specs.Prelude.{◌≡◌};
ghost use Rattle.letters.specs.Letters.{way_from, kind_from};

use crate::{Kind, UnknownLetter, Way};

impl TryFrom<u8> for Way {
    type Error = UnknownLetter;

    ghost try_from_gives = { λ letter r. r ≡ way_from letter };

    fn try_from(letter: u8) -> Result<Self, UnknownLetter> {
        match letter {
            b'F' => Ok(Way::Forward),
            b'I' => Ok(Way::Inverse),
            _ => Err(UnknownLetter(letter)),
        }
    }
}

impl TryFrom<u8> for Kind {
    type Error = UnknownLetter;

    ghost try_from_gives = { λ letter r. r ≡ kind_from letter };

    fn try_from(letter: u8) -> Result<Self, UnknownLetter> {
        match letter {
            b'L' => Ok(Kind::L),
            b'S' => Ok(Kind::S),
            b'A' => Ok(Kind::A),
            b'E' => Ok(Kind::E),
            b'C' => Ok(Kind::C),
            b'P' => Ok(Kind::P),
            b'G' => Ok(Kind::G),
            _ => Err(UnknownLetter(letter)),
        }
    }
}
