// Why a plan has no batches of so many rounds.

ghost use Rattle.std.specs.Prelude.{◌≡◌};
ghost use Rattle.strc_batch.specs.declared.error.BatchError.TheVariants as refused;

use std::alloc::{AllocError, AllocFailed};
use thiserror::Error;

/// Why a plan has no batches of so many rounds: fewer rounds may have some. Channels are those of
/// the graph that is run, numbered from 0.
#[derive(Clone, Copy, Debug, Error)]
pub enum BatchError {
    /// The buffer of a channel would hold more than 16,777,216 items; the lowest such channel.
    #[error("too many items on channel {channel}")]
    BufferLimit { channel: usize },
    /// There are more than 4,096 rounds, or too many firings in lists of several nodes, or a unit
    /// would have 2^32 turns or more.
    #[error("too many firings in a batch")]
    Long,
    /// Memory ran out.
    #[error("out of memory")]
    NoMemory,
}

impl From<AllocError> for BatchError {
    ghost from_gives = { λ _ e. e ≡ refused.NoMemory };

    fn from(_error: AllocError) -> BatchError {
        BatchError::NoMemory
    }
}

impl<T: Drop> From<AllocFailed<T>> for BatchError {
    ghost from_gives = { λ _ e. e ≡ refused.NoMemory };

    fn from(_error: AllocFailed<T>) -> BatchError {
        BatchError::NoMemory
    }
}
