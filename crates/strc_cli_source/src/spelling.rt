// Places that are marked for what is written there: a name, a keyword, an operator.

ghost use Rattle.std.specs.Prelude.{◌≡◌, ◌↔◌, IsTrue, IfSome, IfNone, take};
ghost use Rattle.strc_cli_source.specs.Spelling as spec;

use crate::source::Source;
use strc_lex_names::place::Span;

/// Whether these are the bytes between the ends of a place.
pub fn spells(source: Source<'_>, place: Span, bytes: &[u8]) -> bool
    ensures { IsTrue result ↔ spec.Spells source.entry.text.now place bytes.now }
{
    place.end <= source.text.len() && source.bytes(place) == bytes
}

/// The first token that is spelled so.
pub fn first_spelled(source: Source<'_>, bytes: &[u8]) -> Option<Span>
    ensures spelled { IfSome result (λ place.
        spec.Spells source.entry.text.now place bytes.now) }
    ensures written { IfSome result (λ place.
        spec.IsUnwritten source.entry.text.now source.entry.tokens.now bytes.now → ⊥) }
    ensures unwritten { IfNone result
        (spec.IsUnwritten source.entry.text.now source.entry.tokens.now bytes.now) }
{
    let found = source
        .tokens
        .iter()
        .find(|token| spells(source, token.span, bytes))?;
    Some(found.span)
}

/// The place that is given, where it is spelled so; else the first token that is, and what is given
/// where no token is.
pub fn spelled_or_first(source: Source<'_>, given: Option<Span>, bytes: &[u8]) -> Option<Span>
    ensures marks { spec.Marks source.entry.text.now source.entry.tokens.now bytes.now result }
    ensures kept { IfSome given (λ place.
        spec.Spells source.entry.text.now place bytes.now → result ≡ given) }
    ensures unwritten { spec.IsUnwritten source.entry.text.now source.entry.tokens.now bytes.now
        → result ≡ given }
{
    if let Some(place) = given {
        if spells(source, place, bytes) {
            return given;
        }
    }
    match first_spelled(source, bytes) {
        Some(place) => Some(place),
        None => given,
    }
}

/// Whether a place begins with these bytes.
pub fn begins(source: Source<'_>, place: Span, bytes: &[u8]) -> bool
    ensures { IsTrue result ↔ spec.Begins source.entry.text.now place bytes.now }
{
    place.end <= source.text.len() && first_bytes(source.bytes(place), bytes.len()) == bytes
}

/// The first bytes, so many of them as there are up to this number.
fn first_bytes(bytes: &[u8], most: usize) -> &[u8]
    ensures { result.now ≡ take most bytes.now }
{
    &bytes[..most.min(bytes.len())]
}

/// The place that is given, where it begins so; else the first token that is spelled so, and what
/// is given where no token is.
#[tactic(auto, using(crate::proofs::Beginnings::spelled_begins))]
pub fn beginning_or_first(source: Source<'_>, given: Option<Span>, bytes: &[u8]) -> Option<Span>
    ensures marks { spec.MarksFrom source.entry.text.now source.entry.tokens.now bytes.now result }
    ensures kept { IfSome given (λ place.
        spec.Begins source.entry.text.now place bytes.now → result ≡ given) }
    ensures unwritten { spec.IsUnwritten source.entry.text.now source.entry.tokens.now bytes.now
        → result ≡ given }
{
    if let Some(place) = given {
        if begins(source, place, bytes) {
            return given;
        }
    }
    match first_spelled(source, bytes) {
        Some(place) => Some(place),
        None => given,
    }
}
