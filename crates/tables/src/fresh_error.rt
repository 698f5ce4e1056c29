// Why a fresh memory was not made.
ghost use Rattle.std.specs.Prelude.{◌≡◌, Some};
ghost use Rattle.tables.specs.Text.{fresh_error_words};
ghost use Rattle.tables.specs.declared.fresh_error.FreshError.TheVariants.{NoMemory};

use super::refusal::Refusal;
use std::alloc::AllocError;
use std::error::Error;
use std::fmt;

// Not one generic type with the error of a block: `?` would not convert a refusal of another crate to it.
#[derive(Clone, Copy, Debug, PartialEq, Eq)]
pub enum FreshError {
    Refused(Refusal),
    NoMemory,
}

impl From<AllocError> for FreshError {
    ghost from_gives = { λ _ e. e ≡ NoMemory };

    fn from(_: AllocError) -> Self {
        Self::NoMemory
    }
}

impl fmt::Display for FreshError {
    ghost output = { λ e. Some (fresh_error_words e) };

    fn fmt<W: fmt::Write>(&self, f: &mut fmt::Formatter<W>) -> fmt::Result {
        match self {
            FreshError::Refused(refusal) => write!(f, "no such memory: {refusal}"),
            FreshError::NoMemory => write!(f, "no memory for the tables"),
        }
    }
}

impl Error for FreshError {}
