// What comes first in a slice of tokens.

ghost use Rattle.std.specs.Prelude.{◌≡◌, length, Err};
ghost use Rattle.std.specs.Option.{option_map};
ghost use Rattle.strc_parse_grammar.specs.declared.error.ReadError.TheVariants.{Fault as a_fault};
ghost use Rattle.strc_parse_grammar.specs.declared.error.Fault.TheVariants.{Unexpected};
ghost use Rattle.strc_parse_grammar.specs.Grammar.{kinds};
ghost use Rattle.strc_parse_grammar.specs.Seen.{seen};
ghost use Rattle.strc_parse_grammar.specs.Reading as spec;
ghost use Rattle.strc_parse_grammar.specs.Reading.{Gives};
ghost use Rattle.strc_parse_grammar.specs.Streams.{is_heading};

use crate::{Fault, ReadError};
use strc_lex::token::{Keyword, Punctuation, Token, TokenKind};
use strc_lex_names::name::{Name, StringLiteral};

/// The kind of the first token.
pub fn peek(tokens: &[Token]) -> Option<&TokenKind>
    ensures { option_map (λ k. k.now) result ≡ spec.first (kinds tokens.now) }
{
    match tokens {
        [] => None,
        [first, ..] => Some(&first.kind),
    }
}

/// The tokens past the first one.
pub fn tail(tokens: &[Token]) -> &[Token]
    ensures { kinds result.now ≡ spec.tail (kinds tokens.now) }
{
    match tokens {
        [] => tokens,
        [_, rest @ ..] => rest,
    }
}

/// The refusal of the first token, or of the end.
pub fn unexpected(tokens: &[Token]) -> ReadError
    ensures { result ≡ a_fault (Unexpected (length (kinds tokens.now))) }
{
    ReadError::Fault(Fault::Unexpected(tokens.len()))
}

/// The punctuation that comes first.
#[tactic(auto, unfolding(crate::specs::Reading::punctuation_at))]
pub(crate) fn punctuation_at(tokens: &[Token]) -> Option<Punctuation>
    ensures { result ≡ spec.punctuation_at (kinds tokens.now) }
{
    match peek(tokens) {
        Some(TokenKind::Punctuation(found)) => Some(*found),
        _ => None,
    }
}

/// Whether this punctuation mark comes first.
#[tactic(auto, unfolding(crate::specs::Reading::is_punctuation))]
pub fn is_punctuation(wanted: Punctuation, tokens: &[Token]) -> bool
    ensures { result ≡ spec.is_punctuation wanted (kinds tokens.now) }
{
    match peek(tokens) {
        Some(TokenKind::Punctuation(found)) => *found == wanted,
        _ => false,
    }
}

/// Whether this keyword comes first.
#[tactic(auto, unfolding(crate::specs::Reading::is_keyword))]
pub fn is_keyword(wanted: Keyword, tokens: &[Token]) -> bool
    ensures { result ≡ spec.is_keyword wanted (kinds tokens.now) }
{
    match peek(tokens) {
        Some(TokenKind::Keyword(found)) => *found == wanted,
        _ => false,
    }
}

/// Whether the heading of a helper function comes first: a name and the bracket of its parameters.
#[tactic(auto, unfolding(crate::specs::Streams::is_heading))]
pub fn is_heading(tokens: &[Token]) -> bool
    ensures { result ≡ is_heading (kinds tokens.now) }
{
    match peek(tokens) {
        Some(TokenKind::Name(_)) => is_punctuation(Punctuation::OpenParen, tail(tokens)),
        _ => false,
    }
}

/// The tokens after a punctuation mark that has to come first.
#[tactic(auto, unfolding(crate::specs::Reading::expect))]
pub fn expect(wanted: Punctuation, tokens: &[Token]) -> Result<&[Token], ReadError>
    ensures { Gives (λ rest. kinds rest.now) result (spec.expect wanted (kinds tokens.now)) }
{
    if is_punctuation(wanted, tokens) {
        Ok(tail(tokens))
    } else {
        Err(unexpected(tokens))
    }
}

/// The tokens after a keyword that has to come first.
#[tactic(auto, unfolding(crate::specs::Reading::expect_keyword))]
pub fn expect_keyword(wanted: Keyword, tokens: &[Token]) -> Result<&[Token], ReadError>
    ensures { Gives (λ rest. kinds rest.now) result
        (spec.expect_keyword wanted (kinds tokens.now)) }
{
    if is_keyword(wanted, tokens) {
        Ok(tail(tokens))
    } else {
        Err(unexpected(tokens))
    }
}

/// The name that has to come first.
#[tactic(auto, unfolding(crate::specs::Reading::name))]
pub fn name(tokens: &[Token]) -> Result<(Name, &[Token]), ReadError>
    ensures { Gives seen result (spec.name (kinds tokens.now)) }
{
    match peek(tokens) {
        Some(TokenKind::Name(name)) => Ok((name.copy()?, tail(tokens))),
        _ => Err(unexpected(tokens)),
    }
}

/// The string that has to come first.
#[tactic(auto, unfolding(crate::specs::Reading::text))]
pub(crate) fn text(tokens: &[Token]) -> Result<(StringLiteral, &[Token]), ReadError>
    ensures { Gives seen result (spec.text (kinds tokens.now)) }
{
    match peek(tokens) {
        Some(TokenKind::StringLiteral(text)) => Ok((text.copy()?, tail(tokens))),
        _ => Err(unexpected(tokens)),
    }
}

/// The height of a node, by its highest part's, which must be below the depth.
#[tactic(auto, unfolding(crate::specs::Reading::raised))]
pub fn raised(depth: usize, height: usize) -> Result<usize, ReadError>
    ensures { Gives (λ h. h) result (spec.raised depth height) }
{
    if height < depth {
        Ok(height + 1)
    } else {
        Err(ReadError::Fault(Fault::Nesting))
    }
}
