// Why tokens are refused.

ghost use Rattle.std.specs.Prelude.{◌≡◌};
ghost use Rattle.strc_parse_grammar.specs.declared.error.ReadError.TheVariants.{Memory};

use std::alloc::{AllocError, AllocFailed};
use std::error::Error;
use std::fmt;

/// Why the tokens of a text have no tree.
#[derive(Clone, Copy, Debug, PartialEq, Eq)]
pub enum ParseError {
    /// No program has the token of this number there, counted from 0.
    /// It is the number of tokens where the text ends too soon.
    Parse { token: usize },
    /// A statement or an expression is higher than `HEIGHT_LIMIT`.
    Nesting,
    /// Memory ran out.
    NoMemory,
}

impl fmt::Display for ParseError {
    ghost use Rattle.std.specs.Prelude.{Some};
    ghost use Rattle.strc_parse_grammar.specs.Sentences.{parse_sentence};

    ghost output = { λ error. Some (parse_sentence error) };

    fn fmt<W: fmt::Write>(&self, f: &mut fmt::Formatter<W>) -> fmt::Result {
        match self {
            ParseError::Parse { token } => write!(f, "no program has token {token} there"),
            ParseError::Nesting => write!(f, "a statement or an expression is nested too deep"),
            ParseError::NoMemory => write!(f, "out of memory"),
        }
    }
}

impl Error for ParseError {}

/// What is wrong with the tokens that a rule reads.
#[derive(Clone, Copy, Debug, PartialEq, Eq)]
pub enum Fault {
    /// The rule has no such token, with this many tokens from it to the end.
    Unexpected(usize),
    /// A tree is higher than it may be.
    Nesting,
}

/// Why a rule stopped.
#[derive(Clone, Copy)]
pub enum ReadError {
    Memory,
    Fault(Fault),
}

impl From<AllocError> for ReadError {
    ghost from_gives = { λ _ e. e ≡ Memory };

    fn from(_e: AllocError) -> ReadError {
        ReadError::Memory
    }
}

impl<T: Drop> From<AllocFailed<T>> for ReadError {
    ghost from_gives = { λ _ e. e ≡ Memory };

    fn from(_e: AllocFailed<T>) -> ReadError {
        ReadError::Memory
    }
}
