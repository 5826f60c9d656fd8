// Why a graph has no counts.

ghost use Rattle.std.specs.Prelude.{◌≡◌};
ghost use Rattle.strc_balance.specs.declared.error.BalanceError.TheVariants as refused;

use std::alloc::{AllocError, AllocFailed};
use std::error::Error;
use std::fmt;

/// Why a graph has no counts of a round. Channels are numbered from 0.
#[derive(Clone, Copy, Debug)]
pub enum BalanceError {
    /// A node would fire more than 1,000,000 times, or its count is a fraction of the first node's
    /// with a part above 1,000,000.
    CountsTooLarge,
    /// No counts balance all channels; the lowest one that the fractions of the first node's count
    /// don't balance.
    Inconsistent { channel: usize },
    /// Memory ran out.
    NoMemory,
}

impl fmt::Display for BalanceError {
    ghost use Rattle.std.specs.Prelude.{Some};
    ghost use Rattle.strc_balance.specs.Sentences.{balance_sentence};

    ghost output = { λ error. Some (balance_sentence error) };

    fn fmt<W: fmt::Write>(&self, f: &mut fmt::Formatter<W>) -> fmt::Result {
        match self {
            BalanceError::CountsTooLarge => write!(f, "a node would fire too often in a round"),
            BalanceError::Inconsistent { channel } => {
                write!(f, "no counts balance channel {channel}")
            }
            BalanceError::NoMemory => write!(f, "out of memory"),
        }
    }
}

impl Error for BalanceError {}

impl From<AllocError> for BalanceError {
    ghost from_gives = { λ _ e. e ≡ refused.NoMemory };

    fn from(_error: AllocError) -> BalanceError {
        BalanceError::NoMemory
    }
}

impl<T: Drop> From<AllocFailed<T>> for BalanceError {
    ghost from_gives = { λ _ e. e ≡ refused.NoMemory };

    fn from(_error: AllocFailed<T>) -> BalanceError {
        BalanceError::NoMemory
    }
}
