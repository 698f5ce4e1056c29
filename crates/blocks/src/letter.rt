// The letters of records.
ghost use Rattle.blocks.specs.Letters.{Spells};

use super::refusal::Refusal;

// The letter of a record, which says what is asked for.
#[derive(Clone, Copy, Debug, PartialEq, Eq)]
pub(crate) enum Letter {
    Begin,
    Read,
    Write,
    Commit,
    Withdraw,
    Step,
}

// The letter that a byte is, or a refusal where the byte is none.
impl TryFrom<u8> for Letter {
    type Error = Refusal;

    ghost try_from_gives = { Spells };

    fn try_from(byte: u8) -> Result<Self, Refusal> {
        // A rule of the project: the byte is read as a `char` and matched against letters.
        match byte as char {
            'B' => Ok(Letter::Begin),
            'R' => Ok(Letter::Read),
            'W' => Ok(Letter::Write),
            'C' => Ok(Letter::Commit),
            'D' => Ok(Letter::Withdraw),
            'S' => Ok(Letter::Step),
            _ => Err(Refusal::Letter),
        }
    }
}
