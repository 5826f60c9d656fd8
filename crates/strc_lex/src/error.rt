// Why a text has no tokens.

ghost use Rattle.strc_lex.specs.declared.error.LexError.TheVariants.{NoMemory};
ghost use Rattle.std.specs.Prelude.{◌≡◌};

use crate::lexer::TEXT_LIMIT;
use std::alloc::{AllocError, AllocFailed};
use std::error::Error;
use std::fmt;

/// Why a text has no tokens.
#[derive(Clone, Copy, Debug, PartialEq, Eq)]
pub enum LexError {
    /// No token begins at this byte, counted from 0.
    Lex { at: usize },
    /// The text is longer than `TEXT_LIMIT`.
    TextTooLong,
    /// Memory ran out.
    NoMemory,
}

impl fmt::Display for LexError {
    ghost use Rattle.std.specs.Prelude.{Some};
    ghost use Rattle.strc_lex.specs.Sentences.{lex_sentence};

    ghost output = { λ error. Some (lex_sentence error) };

    fn fmt<W: fmt::Write>(&self, f: &mut fmt::Formatter<W>) -> fmt::Result {
        match self {
            LexError::Lex { at } => write!(f, "no token begins at byte {at}"),
            LexError::TextTooLong => write!(f, "the text is longer than {TEXT_LIMIT} bytes"),
            LexError::NoMemory => write!(f, "out of memory"),
        }
    }
}

impl Error for LexError {}

impl From<AllocError> for LexError {
    ghost from_gives = { λ _ e. e ≡ NoMemory };

    fn from(_e: AllocError) -> LexError {
        LexError::NoMemory
    }
}

impl<T: Drop> From<AllocFailed<T>> for LexError {
    ghost from_gives = { λ _ e. e ≡ NoMemory };

    fn from(_e: AllocFailed<T>) -> LexError {
        LexError::NoMemory
    }
}
