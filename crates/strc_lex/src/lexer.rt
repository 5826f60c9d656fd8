// From the text to its tokens.

ghost use Rattle.std.specs.Prelude.{◌≡◌, ◌+◌, ◌<◌, ◌≤◌, ◌↔◌, length, drop, ℕ, List, IfOk, IfSome};
ghost use Rattle.std.specs.Prelude.{IfNone, IsErrOf, MatchResult};
ghost use Rattle.strc_lex.specs.declared.token.Token.{Token};
ghost use Rattle.strc_lex.specs.declared.token.TokenKind.{TokenKind};
ghost use Rattle.strc_lex.specs.Text.{Lexes, StopsAt, text_limit, IsToken};

use crate::error::LexError;
use crate::scan::token_at;
use crate::token::{Span, Token, TokenKind};
use crate::trivia::trivia_end;
use std::alloc::{AllocError, Global};

/// How long a text may be, in bytes.
pub const TEXT_LIMIT: usize = 1_048_576;

/// The tokens of a text, each with its place.
///
/// White space and comments part tokens. A text longer than `TEXT_LIMIT` is `TextTooLong`. Where no
/// token goes on, also where a comment or a string isn't closed, `Lex` names the byte.
pub fn lex(alloc: Global, text: &[u8]) -> Result<Vec<Token>, LexError>
    ensures ok { IfOk result (λ tokens. Lexes text.now tokens.items) }
    // What has tokens is read, unless memory runs out.
    ensures only { (tokens : List Token) → Lexes text.now tokens → length text.now ≤ text_limit
        → MatchResult result (λ found. found.items ≡ tokens) (λ e. e ≡ LexError.NoMemory) }
    ensures too_long { IsErrOf result LexError.TextTooLong ↔ (text_limit < length text.now) }
    // What is before the byte is trivia and tokens, and no token goes on there.
    ensures stuck { (at : ℕ) → IsErrOf result (LexError.Lex at) → StopsAt text.now at }
{
    if text.len() > TEXT_LIMIT {
        return Err(LexError::TextTooLong);
    }
    let mut tokens = Vec::new(alloc);
    let mut at = trivia_end(text, 0);
    while at < text.len() {
        let Some((kind, len)) = first_token(alloc, text, at)? else {
            return Err(LexError::Lex { at });
        };
        let end = at + len;
        tokens.push(Token {
            kind,
            span: Span { start: at, end },
        })?;
        at = trivia_end(text, end);
    }
    Ok(tokens)
}

// The token at a place of the text, and its length.
fn first_token(
    alloc: Global,
    text: &[u8],
    at: usize,
) -> Result<Option<(TokenKind, usize)>, AllocError>
    requires { at ≤ length text.now }
    ensures found { IfOk result (λ found. IfSome found
        (λ t. IsToken (drop at text.now) t.0 t.1 × (0 < t.1) × (at + t.1 ≤ length text.now))) }
    ensures none { IfOk result (λ found. IfNone found
        ((kind : TokenKind) (len : ℕ) → IsToken (drop at text.now) kind len → ⊥)) }
{
    let rest = &text[at..];
    let found = token_at(alloc, rest, at)?;
    Ok(found)
}

/// A text has one token list.
pub fn one_token_list()
    ensures { (text : List ℕ) (first second : List Token) → Lexes text first → Lexes text second
        → first ≡ second }
{}
