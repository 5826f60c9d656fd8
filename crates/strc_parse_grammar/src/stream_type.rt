// Types and kinds of streams, and the files that streams read and write.

ghost use Rattle.std.specs.Prelude.{◌≡◌};
ghost use Rattle.strc_parse_grammar.specs.Grammar.{kinds};
ghost use Rattle.strc_parse_grammar.specs.Seen.{seen};
ghost use Rattle.strc_parse_grammar.specs.Reading as spec;
ghost use Rattle.strc_parse_grammar.specs.Reading.{Gives};

use crate::ReadError;
use crate::lookahead::{expect, expect_keyword, peek, tail, text, unexpected};
use crate::part::before;
use strc_lex::token::{Keyword, Punctuation, Token, TokenKind};
use strc_lex_names::name::StringLiteral;
use strc_parse_tree::tree::{CompositeKind, ItemType, StreamType};

#[tactic(auto, unfolding(crate::specs::Reading::item_type))]
fn item_type(tokens: &[Token]) -> Result<(ItemType, &[Token]), ReadError>
    ensures { Gives seen result (spec.item_type (kinds tokens.now)) }
{
    match peek(tokens) {
        Some(TokenKind::Keyword(Keyword::Int)) => Ok((ItemType::Int, tail(tokens))),
        Some(TokenKind::Keyword(Keyword::Void)) => Ok((ItemType::Void, tail(tokens))),
        _ => Err(unexpected(tokens)),
    }
}

/// `int->void`
#[tactic(auto, unfolding(crate::specs::Reading::stream_type))]
pub fn stream_type(tokens: &[Token]) -> Result<(StreamType, &[Token]), ReadError>
    ensures { Gives seen result (spec.stream_type (kinds tokens.now)) }
{
    let (input, rest) = item_type(tokens)?;
    let rest = expect(Punctuation::Arrow, rest)?;
    let (output, rest) = item_type(rest)?;
    Ok((StreamType { input, output }, rest))
}

/// The kind of composite stream whose keyword comes first.
#[tactic(auto, unfolding(crate::specs::Reading::composite_kind))]
pub fn composite_kind(tokens: &[Token]) -> Option<CompositeKind>
    ensures { result ≡ spec.composite_kind (kinds tokens.now) }
{
    match peek(tokens) {
        Some(TokenKind::Keyword(Keyword::Pipeline)) => Some(CompositeKind::Pipeline),
        Some(TokenKind::Keyword(Keyword::Splitjoin)) => Some(CompositeKind::Splitjoin),
        Some(TokenKind::Keyword(Keyword::Feedbackloop)) => Some(CompositeKind::Feedbackloop),
        _ => None,
    }
}

/// What follows `<int>`.
#[tactic(auto, unfolding(crate::specs::Reading::int_items))]
pub fn int_items(tokens: &[Token]) -> Result<&[Token], ReadError>
    ensures { Gives (λ rest. kinds rest.now) result (spec.int_items (kinds tokens.now)) }
{
    let opened = expect(Punctuation::Less, tokens)?;
    let named = expect_keyword(Keyword::Int, opened)?;
    expect(Punctuation::Greater, named)
}

/// `("numbers")`
#[tactic(auto, unfolding(crate::specs::Reading::bracketed_text))]
fn bracketed_text(tokens: &[Token]) -> Result<(StringLiteral, &[Token]), ReadError>
    ensures { Gives seen result (spec.bracketed_text (kinds tokens.now)) }
{
    let opened = expect(Punctuation::OpenParen, tokens)?;
    let (text, rest) = text(opened)?;
    before(Punctuation::CloseParen, text, rest)
}

/// `<int>("numbers");`
#[tactic(auto, unfolding(crate::specs::Reading::file))]
pub fn file(tokens: &[Token]) -> Result<(StringLiteral, &[Token]), ReadError>
    ensures { Gives seen result (spec.file (kinds tokens.now)) }
{
    let opened = int_items(tokens)?;
    let (text, rest) = bracketed_text(opened)?;
    before(Punctuation::Semicolon, text, rest)
}
