// Why units aren't fused.

ghost use Rattle.std.specs.Prelude.{◌≡◌};
ghost use Rattle.strc_fuse.specs.declared.error.FuseError.TheVariants as refused;

use std::alloc::{AllocError, AllocFailed};
use std::error::Error;
use std::fmt;

/// Why the units of a round aren't fused. Channels are numbered from 0.
#[derive(Clone, Copy, Debug)]
pub enum FuseError {
    /// After fusion the buffer of a channel would hold more than 16,777,216 items; the lowest such
    /// channel.
    BufferLimit { channel: usize },
    /// Memory ran out.
    NoMemory,
}

impl fmt::Display for FuseError {
    ghost use Rattle.std.specs.Prelude.{Some};
    ghost use Rattle.strc_fuse.specs.Sentences.{fuse_sentence};

    ghost output = { λ error. Some (fuse_sentence error) };

    fn fmt<W: fmt::Write>(&self, f: &mut fmt::Formatter<W>) -> fmt::Result {
        match self {
            FuseError::BufferLimit { channel } => {
                write!(f, "too many items on channel {channel}")
            }
            FuseError::NoMemory => write!(f, "out of memory"),
        }
    }
}

impl Error for FuseError {}

impl From<AllocError> for FuseError {
    ghost from_gives = { λ _ e. e ≡ refused.NoMemory };

    fn from(_error: AllocError) -> FuseError {
        FuseError::NoMemory
    }
}

impl<T: Drop> From<AllocFailed<T>> for FuseError {
    ghost from_gives = { λ _ e. e ≡ refused.NoMemory };

    fn from(_error: AllocFailed<T>) -> FuseError {
        FuseError::NoMemory
    }
}
