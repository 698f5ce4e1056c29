// The reasons for which a block is refused, each with its number.
ghost use Rattle.std.specs.Prelude.{◌≡◌, Some};
ghost use Rattle.blocks.specs.Refusals.{refusal_number, refusal_words};

use std::error::Error;
use std::fmt;

// The question that was answered 'no'.
#[derive(Clone, Copy, Debug, PartialEq, Eq)]
pub enum Refusal {
    // Are there 512 bytes?
    Length = 11,
    // Is the check right?
    Check = 12,
    // Is the number the one that comes next?
    Number = 13,
    // Are there at most 63 records?
    Count = 14,
    // Is the letter of each record known?
    Letter = 15,
}

impl Refusal {
    // The number of the question. Calls and blocks have their own questions, so each of the two enums is cast by itself.
    pub fn number(self) -> u8
        ensures { result ≡ refusal_number self }
    {
        self as u8
    }
}

impl fmt::Display for Refusal {
    ghost output = { λ q. Some (refusal_words q) };

    fn fmt<W: fmt::Write>(&self, f: &mut fmt::Formatter<W>) -> fmt::Result {
        let question = self.number();
        write!(f, "refused {question}")
    }
}

impl Error for Refusal {}
