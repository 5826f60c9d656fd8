// Why a program isn't elaborated, and where.

ghost use Rattle.std.specs.Prelude.{◌≡◌, None};
ghost use Rattle.strc_elab.specs.Answering.{refused_at as refused_at_place};
ghost use Rattle.strc_elab_statements.specs.declared.error.ElabErrorKind.TheVariants as refused;

use std::alloc::AllocError;
use strc_elab_statements::error::ElabError;
use strc_lex_names::place::Span;

/// The first rule that is broken, and the place of the statement that broke it, where it is known.
#[derive(Drop)]
pub struct PlacedError {
    pub error: ElabError,
    pub place: Option<Span>,
}

impl From<ElabError> for PlacedError {
    ghost from_gives = { λ error placed. placed ≡ record { error = error; place = None } };

    /// The error, of which no statement is known.
    fn from(error: ElabError) -> PlacedError {
        PlacedError { error, place: None }
    }
}

impl From<AllocError> for PlacedError {
    ghost from_gives = { λ _ placed. placed ≡ record { error = refused.NoMemory; place = None } };

    fn from(error: AllocError) -> PlacedError {
        PlacedError::from(ElabError::from(error))
    }
}

/// An answer; where it is a refusal, at this place.
pub(crate) fn refused_at<T>(
    place: Option<Span>,
    answer: Result<T, ElabError>,
) -> Result<T, PlacedError>
    ensures { result ≡ refused_at_place place answer }
{
    match answer {
        Ok(value) => Ok(value),
        Err(error) => Err(PlacedError { error, place }),
    }
}
