// Why nodes aren't split.

ghost use Rattle.std.specs.Prelude.{◌≡◌};
ghost use Rattle.strc_fiss.specs.declared.error.FissError.TheVariants as refused;

use std::alloc::{AllocError, AllocFailed};
use std::error::Error;
use std::fmt;
use strc_lex_names::memory::NoMemory;

/// Why the nodes of a graph aren't split. Channels are numbered from 0.
#[derive(Clone, Copy, Debug)]
pub enum FissError {
    /// After fission the graph would have more than 4,096 nodes.
    NodeLimit,
    /// After fission the buffer of a channel would hold more than 16,777,216 items; the lowest such
    /// channel, by its number then.
    BufferLimit { channel: usize },
    /// Memory ran out.
    NoMemory,
}

impl fmt::Display for FissError {
    ghost use Rattle.std.specs.Prelude.{Some};
    ghost use Rattle.strc_fiss.specs.Sentences.{fiss_sentence};

    ghost output = { λ error. Some (fiss_sentence error) };

    fn fmt<W: fmt::Write>(&self, f: &mut fmt::Formatter<W>) -> fmt::Result {
        match self {
            FissError::NodeLimit => write!(f, "too many nodes"),
            FissError::BufferLimit { channel } => {
                write!(f, "too many items on channel {channel}")
            }
            FissError::NoMemory => write!(f, "out of memory"),
        }
    }
}

impl Error for FissError {}

impl From<AllocError> for FissError {
    ghost from_gives = { λ _ e. e ≡ refused.NoMemory };

    fn from(_error: AllocError) -> FissError {
        FissError::NoMemory
    }
}

impl<T: Drop> From<AllocFailed<T>> for FissError {
    ghost from_gives = { λ _ e. e ≡ refused.NoMemory };

    fn from(_error: AllocFailed<T>) -> FissError {
        FissError::NoMemory
    }
}

impl From<NoMemory> for FissError {
    ghost from_gives = { λ _ e. e ≡ refused.NoMemory };

    fn from(_error: NoMemory) -> FissError {
        FissError::NoMemory
    }
}
