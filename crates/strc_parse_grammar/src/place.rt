// Where in the text is what a rule read.

ghost use Rattle.std.specs.Prelude.{◌≡◌};
ghost use Rattle.strc_parse_grammar.specs.Places as spec;

use strc_lex::token::Token;
use strc_lex_names::place::Span;
use strc_parse_tree::operator::Origin;

/// Where the first of these tokens is written.
pub(crate) fn origin_of(tokens: &[Token]) -> Origin {
    match tokens.first() {
        Some(first) => Origin::at(first.span.start),
        None => Origin::none(),
    }
}

/// The place from the first of these tokens up to the last one before those that follow it.
pub fn span_of(tokens: &[Token], rest: &[Token]) -> Span
    ensures { result ≡ spec.span_of (spec.before tokens.now rest.now) }
{
    let read = &tokens[..tokens.len().saturating_sub(rest.len())];
    match (read.first(), read.last()) {
        (Some(first), Some(last)) => Span {
            start: first.span.start,
            end: last.span.end,
        },
        _ => Span { start: 0, end: 0 },
    }
}
