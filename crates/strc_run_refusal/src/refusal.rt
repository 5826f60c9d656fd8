// Why a text is refused.

ghost use Rattle.std.specs.Prelude.{◌≡◌};
ghost use Rattle.strc_run_refusal.specs.Reports.{refusal_of, balance_refusal_of};
ghost use Rattle.strc_run_refusal.specs.Reports.{startup_refusal_of};
ghost use Rattle.strc_run_refusal.specs.Reports.{schedule_refusal_of};
ghost use Rattle.strc_run_refusal.specs.declared.refusal.Refusal.TheVariants.{NoMemory};

use crate::sentence::when;
use std::alloc::{AllocError, AllocFailed};
use std::fmt;
use strc_balance::error::BalanceError;
use strc_elab_statements::error::{ElabError, ElabErrorKind};
use strc_lex_names::memory;
use strc_lex_names::name::Name;
use strc_sched_orders::error::ScheduleError;
use strc_startup::error::StartupError;
use strc_work_meaning::fault::Cause;
use strc_work_rules::name_text::spelled;
use thiserror::Error;

/// Why a text is refused. Bytes, tokens, declarations, nodes and channels are numbered from 0.
#[derive(Drop, Error)]
pub enum Refusal {
    /// No token begins at this byte.
    #[error("no token begins at byte {at}, counted from 0")]
    Lex {
        at: usize,
    },
    /// The first token that no program can have there; their number where the text ends too soon.
    #[error("token {token}, counted from 0, can't follow those before it, or there is none")]
    Parse {
        token: usize,
    },
    /// The text is longer than 1,048,576 bytes.
    #[error("the text is longer than 1048576 bytes")]
    TextTooLong,
    /// A variable or a stream that isn't declared.
    #[error("{text} isn't declared", text = spelled(.name))]
    UnknownName {
        name: Name,
    },
    /// A type, kind or part isn't the one that must be there; the declaration that holds it.
    #[error("in declaration {stream}, counted from 0, a type, a kind or a part doesn't fit")]
    TypeMismatch {
        stream: usize,
    },
    /// No declaration can be the main stream, or the named one can't.
    #[error("the main stream must be a declaration of type void->void without parameters")]
    NoMain,
    /// Several declarations can be the main stream, and none is named.
    #[error("several declarations can be the main stream: name the one that is meant")]
    ManyMains,
    /// A stream would be deeper than 64 levels, the main one being at level 1.
    #[error("streams stand in one another more than 64 levels deep")]
    DepthLimit,
    /// More than 4,096 nodes.
    #[error("the program has more than 4096 nodes")]
    NodeLimit,
    /// The wrong number of arguments; the declaration that holds the statement.
    #[error("in declaration {stream}, counted from 0, a stream has the wrong number of arguments")]
    BadArguments {
        stream: usize,
    },
    /// Weights that aren't allowed; the declaration that holds them.
    #[error("in declaration {stream}, counted from 0, the weights aren't allowed")]
    BadWeights {
        stream: usize,
    },
    /// A fault in the statements of a composite stream, in a rate, a length, an initialiser or
    /// `init`.
    #[error("a constant, a rate, a length, an initialiser or init faults: {cause}")]
    ConstFault {
        cause: Cause,
    },
    /// What a firing pushes or pops can't be counted from its text.
    #[error("what node {node} pushes or pops can't be counted from its text")]
    RateUnknown {
        node: usize,
    },
    /// A declared rate isn't the one that a firing has; counts saturate at 65,537.
    #[error("node {node} declares a rate of {declared}, and its text has {counted}")]
    RateMismatch {
        node: usize,
        declared: u32,
        counted: u32,
    },
    /// A peek can't be within its window.
    #[error("node {node} looks at an item that is outside its declared peek rate")]
    PeekOutside {
        node: usize,
    },
    /// A rate is below 0 or above 65,536, or a rate of `work` is 0 on a side that has items.
    #[error("a rate of node {node} isn't from 0 to 65536, or is 0 on a side that has items")]
    RateLimit {
        node: usize,
    },
    /// More than one node takes the input.
    #[error("more than one FileReader takes the input")]
    TwoInputs,
    /// Two `FileWriter`s have the same bytes between their quotes; the lowest node that repeats an
    /// earlier one's.
    #[error("node {node} writes to the file of an earlier FileWriter")]
    TapeTwice {
        node: usize,
    },
    /// The nodes aren't all connected.
    #[error("the nodes aren't all connected by channels")]
    Disconnected,
    /// A node would fire more than 1,000,000 times in a round, or its count is a fraction of node
    /// 0's with a part above 1,000,000.
    #[error("a node would fire more than 1000000 times in a round")]
    CountsTooLarge,
    /// No counts of a round balance all channels; the lowest channel that those of the spread
    /// don't.
    #[error("no counts of a round balance what is pushed and popped on channel {channel}")]
    Inconsistent {
        channel: usize,
    },
    /// A node would fire more than 1,000,000 times before the first round.
    #[error("a node would fire more than 1000000 times before the first round: enqueue more items")]
    StartupUnbounded,
    /// The firings before the first round, or those of a round, have no order in which each finds
    /// the items that it looks at.
    #[error("{time} nodes wait for one another: enqueue more items", time = when(*.in_startup))]
    Deadlock {
        in_startup: bool,
    },
    /// A channel would hold more than 16,777,216 items; the lowest such channel.
    #[error("channel {channel} would hold more than 16777216 items")]
    BufferLimit {
        channel: usize,
    },
    /// Memory ran out before there was a plan.
    #[error("out of memory")]
    NoMemory,
    /// A statement or an expression is nested deeper than 256.
    #[error("a statement or an expression is nested deeper than 256")]
    Nesting,
}

/// Its sentence.
impl fmt::Debug for Refusal {
    fn fmt<W: fmt::Write>(&self, f: &mut fmt::Formatter<W>) -> fmt::Result {
        fmt::Display::fmt(self, f)
    }
}

impl From<ElabError> for Refusal {
    ghost from_gives = { λ e r. r ≡ refusal_of e };

    fn from(error: ElabError) -> Refusal {
        Refusal::from(error.into_kind())
    }
}

impl From<ElabErrorKind> for Refusal {
    ghost from_gives = { λ e r. r ≡ refusal_of e };

    fn from(kind: ElabErrorKind) -> Refusal {
        match kind {
            ElabErrorKind::UnknownName { name } => Refusal::UnknownName { name },
            ElabErrorKind::TypeMismatch { stream } => Refusal::TypeMismatch { stream },
            ElabErrorKind::NoMain => Refusal::NoMain,
            ElabErrorKind::ManyMains => Refusal::ManyMains,
            ElabErrorKind::DepthLimit => Refusal::DepthLimit,
            ElabErrorKind::NodeLimit => Refusal::NodeLimit,
            ElabErrorKind::BadArguments { stream } => Refusal::BadArguments { stream },
            ElabErrorKind::BadWeights { stream } => Refusal::BadWeights { stream },
            ElabErrorKind::ConstFault { cause } => Refusal::ConstFault { cause },
            ElabErrorKind::TwoInputs => Refusal::TwoInputs,
            ElabErrorKind::TapeTwice { node } => Refusal::TapeTwice { node },
            ElabErrorKind::Disconnected => Refusal::Disconnected,
            ElabErrorKind::NoMemory => Refusal::NoMemory,
        }
    }
}

impl From<BalanceError> for Refusal {
    ghost from_gives = { λ e r. r ≡ balance_refusal_of e };

    fn from(error: BalanceError) -> Refusal {
        match error {
            BalanceError::CountsTooLarge => Refusal::CountsTooLarge,
            BalanceError::Inconsistent { channel } => Refusal::Inconsistent { channel },
            BalanceError::NoMemory => Refusal::NoMemory,
        }
    }
}

impl From<StartupError> for Refusal {
    ghost from_gives = { λ e r. r ≡ startup_refusal_of e };

    fn from(error: StartupError) -> Refusal {
        match error {
            StartupError::Unbounded => Refusal::StartupUnbounded,
            StartupError::NoMemory => Refusal::NoMemory,
        }
    }
}

impl From<ScheduleError> for Refusal {
    ghost from_gives = { λ e r. r ≡ schedule_refusal_of e };

    fn from(error: ScheduleError) -> Refusal {
        match error {
            ScheduleError::Deadlock { in_startup } => Refusal::Deadlock { in_startup },
            ScheduleError::BufferLimit { channel } => Refusal::BufferLimit { channel },
            ScheduleError::NoMemory => Refusal::NoMemory,
        }
    }
}

impl From<memory::NoMemory> for Refusal {
    ghost from_gives = { λ _ e. e ≡ NoMemory };

    fn from(_error: memory::NoMemory) -> Refusal {
        Refusal::NoMemory
    }
}

impl From<AllocError> for Refusal {
    ghost from_gives = { λ _ e. e ≡ NoMemory };

    fn from(_error: AllocError) -> Refusal {
        Refusal::NoMemory
    }
}

impl<T: Drop> From<AllocFailed<T>> for Refusal {
    ghost from_gives = { λ _ e. e ≡ NoMemory };

    fn from(_error: AllocFailed<T>) -> Refusal {
        Refusal::NoMemory
    }
}
