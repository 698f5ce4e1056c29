// Why a block gave no calls: a question refused it, or there was no memory for them.
ghost use Rattle.std.specs.Prelude.{◌≡◌, Some};
ghost use Rattle.turns.specs.Error.{block_error_words};
ghost use Rattle.turns.specs.declared.block_error.BlockError.TheVariants.{Refused, NoMemory};

use blocks::Refusal;
use std::alloc::AllocError;
use std::error::Error;
use std::fmt;

// Not one generic type with the error of a fresh memory: `?` would not convert a refusal of another crate to it.
#[derive(Clone, Copy, Debug, PartialEq, Eq)]
pub enum BlockError {
    Refused { refusal: Refusal },
    NoMemory,
}

impl From<Refusal> for BlockError {
    ghost from_gives = { λ q e. e ≡ Refused q };

    fn from(refusal: Refusal) -> Self {
        Self::Refused { refusal }
    }
}

impl From<AllocError> for BlockError {
    ghost from_gives = { λ _ e. e ≡ NoMemory };

    fn from(_: AllocError) -> Self {
        Self::NoMemory
    }
}

impl fmt::Display for BlockError {
    ghost output = { λ e. Some (block_error_words e) };

    fn fmt<W: fmt::Write>(&self, f: &mut fmt::Formatter<W>) -> fmt::Result {
        match self {
            BlockError::Refused { refusal } => write!(f, "no such block: {refusal}"),
            BlockError::NoMemory => write!(f, "no memory for a block"),
        }
    }
}

impl Error for BlockError {}
