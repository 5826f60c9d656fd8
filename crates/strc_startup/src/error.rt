// Why a graph has no start-up counts.

ghost use Rattle.std.specs.Prelude.{◌≡◌};
ghost use Rattle.strc_startup.specs.declared.error.StartupError.TheVariants as refused;

use std::alloc::{AllocError, AllocFailed};
use std::error::Error;
use std::fmt;

/// Why a graph has no start-up counts.
#[derive(Clone, Copy, Debug)]
pub enum StartupError {
    /// No counts within 1,000,000 prime the graph.
    Unbounded,
    /// Memory ran out.
    NoMemory,
}

impl fmt::Display for StartupError {
    ghost use Rattle.std.specs.Prelude.{Some};
    ghost use Rattle.strc_startup.specs.Sentences.{startup_sentence};

    ghost output = { λ error. Some (startup_sentence error) };

    fn fmt<W: fmt::Write>(&self, f: &mut fmt::Formatter<W>) -> fmt::Result {
        match self {
            StartupError::Unbounded => {
                write!(f, "a node would fire too often before the first round")
            }
            StartupError::NoMemory => write!(f, "out of memory"),
        }
    }
}

impl Error for StartupError {}

impl From<AllocError> for StartupError {
    ghost from_gives = { λ _ e. e ≡ refused.NoMemory };

    fn from(_error: AllocError) -> StartupError {
        StartupError::NoMemory
    }
}

impl<T: Drop> From<AllocFailed<T>> for StartupError {
    ghost from_gives = { λ _ e. e ≡ refused.NoMemory };

    fn from(_error: AllocFailed<T>) -> StartupError {
        StartupError::NoMemory
    }
}
