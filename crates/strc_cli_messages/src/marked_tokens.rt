// What the tokens of a marked part of a text tell.

use strc_cli_source::source::Source;
use strc_cli_source::tokens::{is_keyword, is_mark};
use strc_cli_syntax::operators::is_bitwise;
use strc_lex::token::{Keyword, Punctuation, Span, Token, TokenKind};

/// Whether a part has both a bitwise operator and a comparison.
pub(crate) fn compares_bits(source: Source<'_>, place: Span) -> bool {
    let tokens = source.tokens;
    tokens.iter().any(|it| is_in(it, place) && is_bitwise(it))
        && tokens
            .iter()
            .any(|it| is_in(it, place) && is_comparison(it))
}

/// Whether a part compares what a comparison gives, as `0 < x < 3` does: with no operator between
/// two of them that joins truth values.
pub(crate) fn compares_twice(source: Source<'_>, place: Span) -> bool {
    let mut has_compared = false;
    for token in source.tokens.iter().filter(|it| is_in(it, place)) {
        if is_comparison(token) {
            if has_compared {
                return true;
            }
            has_compared = true;
        } else if is_mark(token, Punctuation::AndAnd)
            || is_mark(token, Punctuation::OrOr)
            || is_mark(token, Punctuation::Semicolon)
        {
            has_compared = false;
        }
    }
    false
}

/// Whether a peek in a part is at a place below 0.
pub(crate) fn looks_back(source: Source<'_>, place: Option<Span>) -> bool {
    let Some(place) = place else {
        return false;
    };
    for (number, token) in source.tokens.iter().enumerate() {
        if is_in(token, place) && is_keyword(token, Keyword::Peek) && negates(source, number) {
            return true;
        }
    }
    false
}

/// Whether the argument of a peek, by the number of its keyword, begins with `-`.
fn negates(source: Source<'_>, number: usize) -> bool {
    match source.tokens.get(number.saturating_add(2)) {
        Some(token) => is_mark(token, Punctuation::Minus),
        None => false,
    }
}

/// Whether a composite stream's block, the first one from a byte on, has a statement that begins
/// with this keyword.
pub(crate) fn block_has(source: Source<'_>, from: usize, keyword: Keyword) -> bool {
    let mut depth: usize = 0;
    for token in source.tokens {
        if token.span.start < from {
            continue;
        }
        if is_mark(token, Punctuation::OpenBrace) {
            depth = depth.saturating_add(1);
        } else if is_mark(token, Punctuation::CloseBrace) {
            depth = depth.saturating_sub(1);
            if depth == 0 {
                return false;
            }
        } else if depth > 0 && is_keyword(token, keyword) {
            return true;
        }
    }
    false
}

/// Whether a token is in a part.
pub(crate) fn is_in(token: &Token, place: Span) -> bool {
    place.start <= token.span.start && token.span.end <= place.end
}

/// Whether a token compares two values.
fn is_comparison(token: &Token) -> bool {
    match token.kind {
        TokenKind::Punctuation(mark) => match mark {
            Punctuation::Equal
            | Punctuation::NotEqual
            | Punctuation::Less
            | Punctuation::LessEqual
            | Punctuation::Greater
            | Punctuation::GreaterEqual => true,
            _ => false,
        },
        _ => false,
    }
}
