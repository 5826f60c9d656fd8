// What single tokens are, and where in a row of tokens one of a kind stands.

ghost use Rattle.std.specs.Prelude.{◌≡◌, ◌↔◌, IsTrue, count_by};
ghost use Rattle.strc_lex.specs.declared.token.TokenKind.TheVariants as kinds;
ghost use Rattle.strc_cli_source.specs.Tokens as spec;

use strc_lex::token::{Keyword, Punctuation, Span, Token, TokenKind};

/// Whether a token is this keyword.
pub fn is_keyword(token: &Token, keyword: Keyword) -> bool
    ensures { result ≡ spec.is_keyword keyword token.now.kind }
{
    match token.kind {
        TokenKind::Keyword(found) => found == keyword,
        _ => false,
    }
}

/// Whether a token is this mark.
pub fn is_mark(token: &Token, mark: Punctuation) -> bool
    ensures { result ≡ spec.is_mark mark token.now.kind }
{
    match token.kind {
        TokenKind::Punctuation(found) => found == mark,
        _ => false,
    }
}

/// Whether a token is this name.
pub fn is_name(token: &Token, name: &[u8]) -> bool
    ensures { IsTrue result ↔ (token.now.kind ≡ kinds.Name name.now) }
{
    match &token.kind {
        TokenKind::Name(found) => found.as_bytes() == name,
        _ => false,
    }
}

/// The last such keyword that begins before this byte of the text.
pub fn keyword_before(tokens: &[Token], at: usize, keyword: Keyword) -> Option<Span>
    ensures { result ≡ spec.keyword_before at keyword tokens.now }
{
    let last = tokens.iter().rev().find(|token| token.span.start < at
        && is_keyword(token, keyword))?;
    Some(last.span)
}

/// How many tokens are this name.
pub fn count_of(tokens: &[Token], name: &[u8]) -> usize {
    tokens.iter().filter(|token| is_name(token, name)).count()
}
