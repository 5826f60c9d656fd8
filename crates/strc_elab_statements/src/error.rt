// Why a program isn't elaborated.

ghost use Rattle.std.specs.Prelude.{◌≡◌};
ghost use Rattle.strc_elab_statements.specs.declared.error.ElabErrorKind.TheVariants as refused;

use crate::within::Within;
use std::alloc::{AllocError, AllocFailed, Global};
use std::fmt;
use std::marker::Model;
use strc_lex_names::memory::NoMemory;
use strc_lex_names::name::Name;
use strc_lex_names::place::Span;
use strc_work_meaning::constants::Constants;
use strc_work_meaning::fault::{Cause, LocatedCause};
use strc_work_rules::name_text::spelled;
use strc_work_rules::site::{Mismatch, Site};
use thiserror::Error;

/// Why a program has no stream, or a stream no graph: the first rule that is broken. Contracts see
/// it as its kind, and nothing of its site and of the stream that it is in.
#[derive(Drop)]
pub struct ElabError {
    kind: ElabErrorKind,
    site: Site,
    within: Within,
}

/// Which rule a program breaks. Declarations are numbered from 0.
#[derive(Drop, Error)]
pub enum ElabErrorKind {
    /// A variable or a stream that isn't declared.
    #[error("{text} isn't declared", text = spelled(.name))]
    UnknownName { name: Name },
    /// A type, kind or part isn't the one that must be there; the declaration that holds it.
    #[error("in declaration {stream}, counted from 0, a type, a kind or a part doesn't fit")]
    TypeMismatch { stream: usize },
    /// No declaration can be the main stream, or the named one can't.
    #[error("the main stream must be a declaration of type void->void without parameters")]
    NoMain,
    /// Several declarations can be the main stream, and none is named.
    #[error("several declarations can be the main stream: name the one that is meant")]
    ManyMains,
    /// A stream would be deeper than 64 levels, the main one being at level 1.
    #[error("streams stand in one another more than 64 levels deep")]
    DepthLimit,
    /// More than 4,096 nodes.
    #[error("the program has more than 4096 nodes")]
    NodeLimit,
    /// A stream or a call of a helper function has the wrong number of arguments; the declaration
    /// that holds it.
    #[error("in declaration {stream}, counted from 0, there is a wrong number of arguments")]
    BadArguments { stream: usize },
    /// Weights that aren't allowed: their number, one below 0 or above 65,536, one of 0 for a
    /// stream that has items on that side or above 0 for one that hasn't; the declaration that
    /// holds them.
    #[error("in declaration {stream}, counted from 0, weights aren't allowed")]
    BadWeights { stream: usize },
    /// A fault in the statements of a composite stream, in a rate, a length, an initialiser or
    /// `init`.
    #[error("a number that must be known before the run faults: {cause}")]
    ConstFault { cause: Cause },
    /// More than one node takes the input.
    #[error("more than one FileReader takes the input")]
    TwoInputs,
    /// Two `FileWriter`s have the same bytes between their quotes; the lowest node that repeats an
    /// earlier one's.
    #[error("node {node} writes to the file of an earlier FileWriter")]
    TapeTwice { node: usize },
    /// The nodes aren't all connected.
    #[error("the nodes aren't all connected by channels")]
    Disconnected,
    /// Memory was refused.
    #[error("out of memory")]
    NoMemory,
}

/// Its sentence.
impl fmt::Debug for ElabErrorKind {
    fn fmt<W: fmt::Write>(&self, f: &mut fmt::Formatter<W>) -> fmt::Result {
        fmt::Display::fmt(self, f)
    }
}

impl fmt::Display for ElabError {
    fn fmt<W: fmt::Write>(&self, f: &mut fmt::Formatter<W>) -> fmt::Result {
        fmt::Display::fmt(&self.kind, f)
    }
}

impl Model for ElabError {
    ghost use Rattle.strc_elab_statements.specs.declared.error.ElabErrorKind.{ElabErrorKind};

    ghost Value = { ElabErrorKind };

    ghost view = { λ e. e.kind };
}

impl From<ElabErrorKind> for ElabError {
    ghost from_gives = { λ kind e. e ≡ kind };

    /// The error of this kind, of which no place is known.
    fn from(kind: ElabErrorKind) -> ElabError {
        ElabError {
            kind,
            site: Site::unknown(),
            within: Within::unknown(),
        }
    }
}

impl ElabError {
    /// The error of this kind, at this site.
    pub fn new(kind: ElabErrorKind, site: Site) -> ElabError
        ensures { result ≡ kind }
    {
        ElabError {
            kind,
            site,
            within: Within::unknown(),
        }
    }

    /// A rule on types, kinds and parts is broken in this declaration.
    pub fn mismatch(stream: usize, mismatch: Mismatch) -> ElabError
        ensures { result ≡ refused.TypeMismatch stream }
    {
        ElabError {
            kind: ElabErrorKind::TypeMismatch { stream },
            site: Site::of(mismatch),
            within: Within::unknown(),
        }
    }

    /// A number that must be known before the run faults.
    pub fn fault(cause: Cause) -> ElabError
        ensures { result ≡ refused.ConstFault cause }
    {
        ElabError {
            kind: ElabErrorKind::ConstFault { cause },
            site: Site::unknown(),
            within: Within::unknown(),
        }
    }

    /// A filter faults at its start.
    pub fn at_start(cause: LocatedCause) -> ElabError
        ensures { result ≡ refused.ConstFault cause }
    {
        ElabError {
            kind: ElabErrorKind::ConstFault {
                cause: cause.cause(),
            },
            site: Site::trapped(cause.trapped()),
            within: Within::unknown(),
        }
    }

    /// The same error; at this place, where none was known.
    pub fn or_at(self, place: Option<Span>) -> ElabError
        ensures { result ≡ self }
    {
        let ElabError { kind, site, within } = self;
        ElabError {
            kind,
            site: site.or_at(place),
            within,
        }
    }

    /// The same error; in the stream of this name, whose parameters are these constants, where no
    /// stream was known.
    pub fn or_within(self, alloc: Global, name: Option<&Name>, constants: &Constants) -> ElabError
        ensures { result ≡ self }
    {
        let ElabError { kind, site, within } = self;
        ElabError {
            kind,
            site,
            within: within.or(Within::of(alloc, name, constants)),
        }
    }

    /// Which rule is broken.
    pub fn kind(&self) -> &ElabErrorKind
        ensures { result.now ≡ self.now }
    {
        &self.kind
    }

    /// Which rule is broken, taken out of the error.
    pub fn into_kind(self) -> ElabErrorKind
        ensures { result ≡ self }
    {
        self.into_parts().0
    }

    /// Which rule is broken, and in which stream.
    pub fn into_parts(self) -> (ElabErrorKind, Within)
        ensures { result.0 ≡ self }
    {
        let ElabError {
            kind,
            site: _,
            within,
        } = self;
        (kind, within)
    }

    /// Where it is broken, as far as that is known.
    pub fn site(&self) -> Site {
        self.site
    }
}

impl From<NoMemory> for ElabError {
    ghost from_gives = { λ _ e. e ≡ refused.NoMemory };

    fn from(_error: NoMemory) -> ElabError {
        ElabError::from(ElabErrorKind::NoMemory)
    }
}

impl From<AllocError> for ElabError {
    ghost from_gives = { λ _ e. e ≡ refused.NoMemory };

    fn from(_error: AllocError) -> ElabError {
        ElabError::from(ElabErrorKind::NoMemory)
    }
}

impl<T: Drop> From<AllocFailed<T>> for ElabError {
    ghost from_gives = { λ _ e. e ≡ refused.NoMemory };

    fn from(_error: AllocFailed<T>) -> ElabError {
        ElabError::from(ElabErrorKind::NoMemory)
    }
}
