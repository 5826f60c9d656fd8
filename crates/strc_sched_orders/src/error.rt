// Why a graph has no schedule.

ghost use Rattle.std.specs.Prelude.{◌≡◌};
ghost use Rattle.strc_sched_orders.specs.declared.error.ScheduleError.TheVariants as refused;

use std::alloc::{AllocError, AllocFailed};
use std::error::Error;
use std::fmt;

/// Why a graph has no schedule. Channels are numbered from 0.
#[derive(Clone, Copy, Debug)]
pub enum ScheduleError {
    /// The firings of start-up, or those of a round, have no order in which each finds its windows.
    Deadlock { in_startup: bool },
    /// The buffer of a channel would hold more than 16,777,216 items; the lowest such channel.
    BufferLimit { channel: usize },
    /// Memory ran out.
    NoMemory,
}

impl fmt::Display for ScheduleError {
    ghost use Rattle.std.specs.Prelude.{Some};
    ghost use Rattle.strc_sched_orders.specs.Sentences.{schedule_sentence};

    ghost output = { λ error. Some (schedule_sentence error) };

    fn fmt<W: fmt::Write>(&self, f: &mut fmt::Formatter<W>) -> fmt::Result {
        match self {
            ScheduleError::Deadlock { in_startup: true } => {
                write!(f, "no order of the firings before the first round exists")
            }
            ScheduleError::Deadlock { in_startup: false } => {
                write!(f, "no order of the firings of a round exists")
            }
            ScheduleError::BufferLimit { channel } => {
                write!(f, "too many items on channel {channel}")
            }
            ScheduleError::NoMemory => write!(f, "out of memory"),
        }
    }
}

impl Error for ScheduleError {}

impl From<AllocError> for ScheduleError {
    ghost from_gives = { λ _ e. e ≡ refused.NoMemory };

    fn from(_error: AllocError) -> ScheduleError {
        ScheduleError::NoMemory
    }
}

impl<T: Drop> From<AllocFailed<T>> for ScheduleError {
    ghost from_gives = { λ _ e. e ≡ refused.NoMemory };

    fn from(_error: AllocFailed<T>) -> ScheduleError {
        ScheduleError::NoMemory
    }
}
