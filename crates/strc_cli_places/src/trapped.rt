// The part of a text that trapped, where that was noted.

ghost use Rattle.std.specs.Prelude.{◌≡◌, ◌+◌, ◌<◌, ◌==◌, IfSome, length, position, slice_get};
ghost use Rattle.std.specs.Option.{option_or};
ghost use Rattle.strc_cli_places.specs.Refused as spec;

use strc_cli_source::operators::{can_fault, with_operand};
use strc_cli_source::source::Source;
use strc_lex::token::{Keyword, Token, TokenKind};
use strc_lex_names::place::Span;
use strc_work_meaning::fault::{Cause, Trapped};

/// The operator, the element or the look that faulted, or the innermost loop that comes to a turn
/// too many, or the call that is one too many, where it is known at which byte that begins.
pub fn trapped_part(source: Source<'_>, cause: Cause, byte: Option<usize>) -> Option<Span>
    ensures { result ≡ spec.trapped_part source.entry.tokens.now cause byte }
{
    let number = token_from(source.tokens, byte?)?;
    match operator_of(source.tokens, number, cause) {
        Some(part) => Some(part),
        None => turn_of(source, number, cause),
    }
}

/// The number of the byte where something begins, as far as it is known.
pub(crate) fn byte_of(trapped: Trapped) -> Option<usize>
    ensures { result ≡ spec.byte_of trapped.mark }
{
    let byte = trapped.mark.checked_sub(1)?;
    Some(byte as usize)
}

/// The number of the token that begins at a byte.
fn token_from(tokens: &[Token], byte: usize) -> Option<usize>
    ensures found { result ≡ position (λ found. found.span.start == byte) tokens.now }
    ensures within { IfSome result (λ number. number < length tokens.now) }
{
    tokens.iter().position(|token| token.span.start == byte)
}

/// The operator at the token of this number, or the one behind the array's name there.
fn operator_of(tokens: &[Token], number: usize, cause: Cause) -> Option<Span>
    requires { number < length tokens.now }
    ensures { result ≡ option_or (spec.operator_there tokens.now cause number)
        (spec.operator_there tokens.now cause (number + 1)) }
{
    match operator_at(tokens, number, cause) {
        Some(part) => Some(part),
        None => operator_at(tokens, number + 1, cause),
    }
}

/// The heading of the loop that the token of this number begins, or what is called there.
fn turn_of(source: Source<'_>, number: usize, cause: Cause) -> Option<Span>
    ensures { result ≡ spec.turning_part source.entry.tokens.now cause
        (slice_get source.entry.tokens.now number) }
{
    let token = source.tokens.get(number)?;
    if can_turn(&token.kind, cause) {
        Some(source.heading(turning_span(token)))
    } else {
        None
    }
}

/// Whether a token begins a loop, or is the name of what is called, that can come to this.
fn can_turn(kind: &TokenKind, cause: Cause) -> bool
    ensures { result ≡ spec.can_turn cause kind.now }
{
    match cause {
        Cause::Turns => is_loop(kind),
        Cause::Calls => is_name(kind),
        Cause::DivZero | Cause::Index | Cause::PeekRange => false,
    }
}

/// What is marked of a loop, or of a call: as much as a heading is from where it begins, or a name.
fn turning_span(token: &Token) -> Span
    ensures { result ≡ spec.turning_span token.now }
{
    if is_loop(&token.kind) {
        Span {
            start: token.span.start,
            end: usize::MAX,
        }
    } else {
        token.span
    }
}

fn is_loop(kind: &TokenKind) -> bool
    ensures { result ≡ spec.is_loop kind.now }
{
    match kind {
        TokenKind::Keyword(keyword) => *keyword == Keyword::While || *keyword == Keyword::For,
        _ => false,
    }
}

fn is_name(kind: &TokenKind) -> bool
    ensures { result ≡ spec.is_name kind.now }
{
    match kind {
        TokenKind::Name(_) => true,
        _ => false,
    }
}

/// The place of the token of this number, where it is an operator that can fault so.
fn operator_at(tokens: &[Token], number: usize, cause: Cause) -> Option<Span>
    ensures { result ≡ spec.operator_there tokens.now cause number }
{
    let token = tokens.get(number)?;
    if can_fault(&token.kind, cause) {
        with_operand(tokens, number)
    } else {
        None
    }
}
