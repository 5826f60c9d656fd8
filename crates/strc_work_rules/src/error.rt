// Why a filter isn't accepted.

ghost use Rattle.std.specs.Prelude.{◌≡◌};
ghost use Rattle.strc_work_rules.specs.declared.error.LowerErrorKind.TheVariants as refused;

use crate::name_text::spelled;
use crate::site::{Mismatch, Site};
use std::alloc::{AllocError, AllocFailed};
use std::marker::Model;
use strc_lex_names::memory::NoMemory;
use strc_lex_names::name::Name;
use strc_lex_names::place::Span;
use strc_work_meaning::fault::Cause;
use thiserror::Error;

/// Why a filter isn't lowered: the first rule that it breaks, in order of the text. Contracts see
/// it as its kind, and nothing of its site.
#[derive(Drop)]
pub struct LowerError {
    kind: LowerErrorKind,
    site: Site,
}

/// Which rule a filter breaks.
#[derive(Debug, Drop, Error)]
pub enum LowerErrorKind {
    /// A name that isn't declared.
    #[error("{text} isn't declared", text = spelled(.name))]
    UnknownName { name: Name },
    /// A type, kind or part isn't the one that must be there.
    #[error("a type, a kind or a part of a filter doesn't fit where it stands")]
    TypeMismatch,
    /// A number that must be known faults when it is computed, or can't be the length of an array.
    #[error("a number that must be known faults, or can't be the length of an array: {cause}")]
    ConstFault { cause: Cause },
    /// A call has another number of arguments than its helper function has parameters.
    #[error("a call has another number of arguments than its helper function takes")]
    BadArguments,
    /// Memory was refused.
    #[error("out of memory")]
    NoMemory,
}

impl Model for LowerError {
    ghost use Rattle.strc_work_rules.specs.declared.error.LowerErrorKind.{LowerErrorKind};

    ghost Value = { LowerErrorKind };

    ghost view = { λ e. e.kind };
}

impl LowerError {
    /// The name isn't declared; it is the place.
    pub fn unknown(name: Name) -> LowerError
        ensures { result ≡ refused.UnknownName name }
    {
        let site = Site::unknown().or_at(name.place());
        LowerError {
            kind: LowerErrorKind::UnknownName { name },
            site,
        }
    }

    /// A rule on types, kinds and parts is broken.
    pub fn mismatch(mismatch: Mismatch) -> LowerError
        ensures { result ≡ refused.TypeMismatch }
    {
        LowerError {
            kind: LowerErrorKind::TypeMismatch,
            site: Site::of(mismatch),
        }
    }

    /// A number that must be known faults.
    pub fn fault(cause: Cause) -> LowerError
        ensures { result ≡ refused.ConstFault cause }
    {
        LowerError {
            kind: LowerErrorKind::ConstFault { cause },
            site: Site::unknown(),
        }
    }

    /// A call has another number of arguments than its helper function has parameters.
    pub fn bad_arguments() -> LowerError
        ensures { result ≡ refused.BadArguments }
    {
        LowerError {
            kind: LowerErrorKind::BadArguments,
            site: Site::unknown(),
        }
    }

    /// Memory was refused.
    pub fn no_memory() -> LowerError
        ensures { result ≡ refused.NoMemory }
    {
        LowerError {
            kind: LowerErrorKind::NoMemory,
            site: Site::unknown(),
        }
    }

    /// The same error; at this place, where none was known.
    pub fn or_at(self, place: Option<Span>) -> LowerError
        ensures { result ≡ self }
    {
        LowerError {
            kind: self.kind,
            site: self.site.or_at(place),
        }
    }

    /// Which rule is broken, taken out of the error.
    pub fn into_kind(self) -> LowerErrorKind
        ensures { result ≡ self }
    {
        self.kind
    }

    /// Where it is broken, as far as that is known.
    pub fn site(&self) -> Site {
        self.site
    }
}

/// An answer; where it is an error without a place, at this one.
pub fn placed<T>(place: Option<Span>, answer: Result<T, LowerError>) -> Result<T, LowerError>
    ensures { result ≡ answer }
{
    match answer {
        Ok(value) => Ok(value),
        Err(error) => Err(error.or_at(place)),
    }
}

impl From<NoMemory> for LowerError {
    ghost from_gives = { λ _ e. e ≡ refused.NoMemory };

    fn from(_error: NoMemory) -> LowerError {
        LowerError::no_memory()
    }
}

impl From<AllocError> for LowerError {
    ghost from_gives = { λ _ e. e ≡ refused.NoMemory };

    fn from(_error: AllocError) -> LowerError {
        LowerError::no_memory()
    }
}

impl<T: Drop> From<AllocFailed<T>> for LowerError {
    ghost from_gives = { λ _ e. e ≡ refused.NoMemory };

    fn from(_error: AllocFailed<T>) -> LowerError {
        LowerError::no_memory()
    }
}
