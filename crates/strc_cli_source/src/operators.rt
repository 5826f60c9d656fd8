// The operator of a statement that faults.

ghost use Rattle.std.specs.Prelude.{◌≡◌, ◌<◌, Some, IfSome, length, position};
ghost use Rattle.strc_cli_source.specs.Operators as spec;

use crate::source::Source;
use crate::tokens::is_mark;
use strc_lex::token::{Keyword, Punctuation, Token, TokenKind};
use strc_lex_names::place::Span;
use strc_work_meaning::fault::Cause;

/// What is marked of a statement that faults: the operator that can, where it has just one; else as
/// much of it as a heading is.
pub fn faulting_part(source: Source<'_>, statement: Span, cause: Cause) -> Span
    ensures { result ≡ spec.faulting_part source.entry.tokens.now cause statement }
{
    let heading = source.heading(statement);
    match only_operator(source.tokens, heading, cause) {
        Some(number) => with_operand(source.tokens, number).unwrap_or(heading),
        None => heading,
    }
}

/// The number of the one operator in a place that can fault so, where there is just one.
fn only_operator(tokens: &[Token], place: Span, cause: Cause) -> Option<usize>
    ensures { result ≡ spec.only (spec.can_fault_in cause place) tokens.now }
{
    let first = first_operator(tokens, place, cause)?;
    match first_operator(&tokens[first + 1..], place, cause) {
        Some(_later) => None,
        None => Some(first),
    }
}

/// The number of the first operator in a place that can fault so.
fn first_operator(tokens: &[Token], place: Span, cause: Cause) -> Option<usize>
    ensures found { result ≡ position (spec.can_fault_in cause place) tokens.now }
    ensures within { IfSome result (λ first. first < length tokens.now) }
{
    tokens
        .iter()
        .position(|token| can_fault_in(token, place, cause))
}

/// Whether a token is an operator in a place that can fault so.
fn can_fault_in(token: &Token, place: Span, cause: Cause) -> bool
    ensures { result ≡ spec.can_fault_in cause place token.now }
{
    place.start <= token.span.start && token.span.end <= place.end && can_fault(&token.kind, cause)
}

/// Whether a token is an operator that can fault so.
pub fn can_fault(token: &TokenKind, cause: Cause) -> bool
    ensures { result ≡ spec.can_fault cause token.now }
{
    match (cause, token) {
        (Cause::DivZero, TokenKind::Punctuation(mark)) => is_division(*mark),
        (Cause::Index, TokenKind::Punctuation(mark)) => *mark == Punctuation::OpenBracket,
        (Cause::PeekRange, TokenKind::Keyword(keyword)) => *keyword == Keyword::Peek,
        _ => false,
    }
}

fn is_division(mark: Punctuation) -> bool
    ensures { result ≡ spec.is_division mark }
{
    match mark {
        Punctuation::Slash
        | Punctuation::Percent
        | Punctuation::SlashAssign
        | Punctuation::PercentAssign => true,
        _ => false,
    }
}

/// The place of an operator; of the bracket of an element that of the element.
pub fn with_operand(tokens: &[Token], operator: usize) -> Option<Span>
    ensures { result ≡ spec.operator_at tokens.now (Some operator) }
{
    let found = tokens.get(operator)?;
    if !is_mark(found, Punctuation::OpenBracket) {
        return Some(found.span);
    }
    let name = tokens.get(operator.checked_sub(1)?)?;
    let end = closing_end(tokens.get(operator..)?)?;
    Some(Span {
        start: name.span.start,
        end,
    })
}

/// Where the bracket ends that closes the one that comes first.
fn closing_end(tokens: &[Token]) -> Option<usize>
    ensures { result ≡ spec.closing_end 0 tokens.now }
{
    let mut brackets: usize = 0;
    for token in tokens {
        if brackets <= 1 && is_mark(token, Punctuation::CloseBracket) {
            return Some(token.span.end);
        }
        brackets = open_after(brackets, token);
    }
    None
}

/// How many square brackets are open after a token, of those that were before it.
fn open_after(brackets: usize, token: &Token) -> usize
    requires { brackets < usize.MAX }
    ensures { result ≡ spec.open_after brackets token.now.kind }
{
    if is_mark(token, Punctuation::OpenBracket) {
        brackets + 1
    } else if is_mark(token, Punctuation::CloseBracket) {
        brackets.saturating_sub(1)
    } else {
        brackets
    }
}
