// Why there is no run.

ghost use Rattle.std.specs.Prelude.{◌≡◌};
ghost use Rattle.strc_sched_outcome.specs.declared.run_refusal.RunRefusal.TheVariants as refused;

use std::alloc::{AllocError, AllocFailed};
use std::error::Error;
use std::fmt;

/// Why there is no run.
#[derive(Clone, Copy, Debug)]
pub enum RunRefusal {
    /// The rounds read more items than the input has.
    InputShort { need: u64, got: u64 },
    /// The number of workers isn't one from 1 to 64.
    BadWorkers,
    /// Memory ran out.
    NoMemory,
    /// A thread was refused.
    NoWorker,
    /// No number of rounds is given, and no input bounds it.
    RoundsNeeded,
}

impl fmt::Display for RunRefusal {
    ghost use Rattle.std.specs.Prelude.{Some};
    ghost use Rattle.strc_sched_outcome.specs.Sentences.{refusal_sentence};

    ghost output = { λ refusal. Some (refusal_sentence refusal) };

    fn fmt<W: fmt::Write>(&self, f: &mut fmt::Formatter<W>) -> fmt::Result {
        match self {
            RunRefusal::InputShort { need, .. } => {
                write!(f, "the input has fewer items than the rounds read, {need}")
            }
            RunRefusal::BadWorkers => write!(f, "the number of workers must be from 1 to 64"),
            RunRefusal::NoMemory => write!(f, "out of memory"),
            RunRefusal::NoWorker => write!(f, "a thread was refused"),
            RunRefusal::RoundsNeeded => {
                write!(f, "a number of rounds is needed where no input is read")
            }
        }
    }
}

impl Error for RunRefusal {}

impl From<AllocError> for RunRefusal {
    ghost from_gives = { λ _ e. e ≡ refused.NoMemory };

    fn from(_error: AllocError) -> RunRefusal {
        RunRefusal::NoMemory
    }
}

impl<T: Drop> From<AllocFailed<T>> for RunRefusal {
    ghost from_gives = { λ _ e. e ≡ refused.NoMemory };

    fn from(_error: AllocFailed<T>) -> RunRefusal {
        RunRefusal::NoMemory
    }
}
