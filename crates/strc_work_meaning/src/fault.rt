// How a firing can end without a result.

use std::marker::Model;
use std::{error, fmt};
use thiserror::Error;

/// How many turns the loops of one firing, of one start or of one elaboration may make, where a
/// call counts as one: one more is the fault `Turns`.
pub const TURN_LIMIT: u32 = 1_000_000;

/// How many calls of a firing or of a start may be running at once: one more is the fault `Calls`.
pub const CALL_LIMIT: u32 = 64;

/// Why a firing faults.
#[derive(Clone, Copy, Debug, PartialEq, Eq)]
pub enum Cause {
    /// A divisor is 0.
    DivZero,
    /// An index is outside its array.
    Index,
    /// An item is popped, pushed or looked at beyond the declared rate.
    PeekRange,
    /// The loops of one firing turn too often.
    Turns,
    /// Too many calls are running at once.
    Calls,
}

impl fmt::Display for Cause {
    ghost use Rattle.std.specs.Prelude.{Some};
    ghost use Rattle.strc_work_meaning.specs.Causes.{cause_name};

    ghost output = { λ cause. Some (cause_name cause) };

    fn fmt<W: fmt::Write>(&self, f: &mut fmt::Formatter<W>) -> fmt::Result {
        match self {
            Cause::DivZero => write!(f, "DivZero"),
            Cause::Index => write!(f, "Index"),
            Cause::PeekRange => write!(f, "PeekRange"),
            Cause::Turns => write!(f, "Turns"),
            Cause::Calls => write!(f, "Calls"),
        }
    }
}

impl error::Error for Cause {}

/// What is known of what faulted beyond the cause, for those who read of it. No contract rests on
/// it.
#[derive(Clone, Copy, Debug)]
pub struct Trapped {
    /// Where the operator or the array is written: one more than the number of its first byte; 0
    /// where that isn't known.
    pub mark: u32,
    /// The index of the element, or how far ahead the item is, that isn't there.
    pub index: i32,
    /// How many there are.
    pub count: u32,
}

impl Trapped {
    /// Nothing is known.
    pub fn nothing() -> Trapped {
        Trapped {
            mark: 0,
            index: 0,
            count: 0,
        }
    }
}

/// Why a firing faults, and what is known of what faulted. Contracts see the cause alone.
#[derive(Debug, Drop)]
pub struct LocatedCause {
    cause: Cause,
    trapped: Trapped,
}

impl Model for LocatedCause {
    ghost use Rattle.strc_work_meaning.specs.declared.fault.Cause.{Cause};

    ghost Value = { Cause };

    ghost view = { λ l. l.cause };
}

impl LocatedCause {
    ghost use Rattle.std.specs.Prelude.{◌≡◌};

    /// The cause, with what is known of what faulted.
    pub fn new(cause: Cause, trapped: Trapped) -> LocatedCause
        ensures { result ≡ cause }
    {
        LocatedCause { cause, trapped }
    }

    /// The cause.
    pub fn cause(&self) -> Cause
        ensures { result ≡ self.now }
    {
        self.cause
    }

    /// What is known of what faulted.
    pub fn trapped(&self) -> Trapped {
        self.trapped
    }

    /// The number of the byte where what faulted begins, if it is known.
    pub fn byte(&self) -> Option<usize> {
        let byte = self.trapped.mark.checked_sub(1)?;
        Some(byte as usize)
    }

    /// An equal one, of what is written at the same place.
    pub fn copy(&self) -> LocatedCause
        ensures { result ≡ self.now }
    {
        LocatedCause {
            cause: self.cause,
            trapped: self.trapped,
        }
    }
}

/// Why a firing stopped.
#[derive(Clone, Copy, Debug, Error)]
pub enum Halt {
    /// The program is at fault.
    #[error("a firing faults: {0}")]
    Fault(Cause),
    /// There was no room for a printed word.
    #[error("out of memory for the words that a firing prints")]
    NoMemory,
}
