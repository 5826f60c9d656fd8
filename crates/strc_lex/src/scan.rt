// Reading the token at the front of a text.

ghost use Rattle.std.specs.Prelude.{◌≡◌, ◌≤◌, IfOk, true, length, take_while};
ghost use Rattle.std.specs.List.{list_all};
ghost use Rattle.strc_lex.specs.Characters as spec_of;
ghost use Rattle.strc_lex.specs.Scanning as spec;
ghost use Rattle.strc_lex.specs.Text.{number_from};

use crate::characters::{is_digit, is_letter, is_name_byte, is_quote, is_string_byte};
use crate::token::{Keyword, Name, Punctuation, StringLiteral, TokenKind};
use std::alloc::{AllocError, Global};

// The greatest number that a text can write.
const GREATEST: u64 = 2_147_483_648;

/// The token at the front of a text and its length, or None where none begins there; where the
/// front is at this byte of the whole text.
pub(crate) fn token_at(
    alloc: Global,
    text: &[u8],
    at: usize,
) -> Result<Option<(TokenKind, usize)>, AllocError>
    ensures { IfOk result (λ found. found ≡ spec.token_at text.now) }
{
    let Some(&first) = text.first() else {
        return Ok(None);
    };
    if is_letter(first) {
        Ok(Some(name_at(alloc, text, at)?))
    } else if is_digit(first) {
        Ok(number_at(text))
    } else if is_quote(first) {
        string_at(alloc, text)
    } else {
        Ok(punctuation_at(text))
    }
}

// A name or a keyword.
fn name_at(alloc: Global, text: &[u8], at: usize) -> Result<(TokenKind, usize), AllocError>
    ensures { IfOk result (λ found. found ≡ spec.name_at text.now) }
{
    let bytes = name_bytes(text);
    match keyword_of(bytes) {
        Some(keyword) => Ok((TokenKind::Keyword(keyword), bytes.len())),
        None => Ok((
            TokenKind::Name(Name::written_at(bytes.to_vec(alloc)?, at)),
            bytes.len(),
        )),
    }
}

// The front that goes on as a name does.
fn name_bytes(text: &[u8]) -> &[u8]
    ensures { result.now ≡ take_while spec_of.is_name_byte text.now }
{
    &text[..name_length(text)]
}

fn name_length(text: &[u8]) -> usize
    ensures within { result ≤ length text.now }
    ensures run { result ≡ length (take_while spec_of.is_name_byte text.now) }
{
    text.iter().take_while(|byte| is_name_byte(**byte)).count()
}

// The digits at the front.
fn digits_at(text: &[u8]) -> &[u8]
    ensures { result.now ≡ take_while spec_of.is_digit text.now }
{
    &text[..digits_length(text)]
}

fn digits_length(text: &[u8]) -> usize
    ensures within { result ≤ length text.now }
    ensures run { result ≡ length (take_while spec_of.is_digit text.now) }
{
    text.iter().take_while(|byte| is_digit(**byte)).count()
}

fn keyword_of(bytes: &[u8]) -> Option<Keyword>
    ensures { result ≡ spec.keyword_of bytes.now }
{
    Keyword::ALL
        .iter()
        .copied()
        .find(|keyword| keyword.text() == bytes)
}

fn number_at(text: &[u8]) -> Option<(TokenKind, usize)>
    ensures { result ≡ spec.number_at text.now }
{
    let digits = digits_at(text);
    if is_plain(digits) && ends_number(&text[digits.len()..]) {
        let value = number_of(digits)?;
        Some((TokenKind::Number(value.cast_signed()), digits.len()))
    } else {
        None
    }
}

// Whether the digits have no needless 0 in front.
fn is_plain(digits: &[u8]) -> bool
    ensures { result ≡ spec.is_plain digits.now }
{
    match digits {
        [] => false,
        [first, rest @ ..] => *first != b'0' || rest.is_empty(),
    }
}

// Whether what is after a number parts it from the next token.
fn ends_number(rest: &[u8]) -> bool
    ensures { result ≡ spec.ends_number rest.now }
{
    match rest {
        [] => true,
        [next, ..] => !is_name_byte(*next),
    }
}

// The number that the digits write, where it isn't too great.
fn number_of(digits: &[u8]) -> Option<u32>
    requires { list_all spec_of.is_digit digits.now ≡ true }
    ensures { result ≡ spec.bounded (number_from 0 digits.now) }
{
    let mut number: u64 = 0;
    for digit in digits {
        if number > GREATEST {
            return None;
        }
        number = 10 * number + u64::from(*digit - b'0');
    }
    if number > GREATEST {
        None
    } else {
        Some(number as u32)
    }
}

fn punctuation_at(text: &[u8]) -> Option<(TokenKind, usize)>
    ensures { result ≡ spec.punctuation_at text.now }
{
    if text.starts_with(b"//") || text.starts_with(b"/*") {
        return None;
    }
    let punctuation = punctuation_of(text)?;
    Some((
        TokenKind::Punctuation(punctuation),
        punctuation.text().len(),
    ))
}

// The punctuation at the front, the longer ones first.
fn punctuation_of(text: &[u8]) -> Option<Punctuation>
    ensures { result ≡ spec.punctuation_of text.now }
{
    match pair_of(text) {
        Some(punctuation) => Some(punctuation),
        None => single_of(text),
    }
}

fn pair_of(text: &[u8]) -> Option<Punctuation>
    ensures { result ≡ spec.pair_of text.now }
{
    Punctuation::PAIRS
        .iter()
        .copied()
        .find(|punctuation| text.starts_with(punctuation.text()))
}

fn single_of(text: &[u8]) -> Option<Punctuation>
    ensures { result ≡ spec.single_of text.now }
{
    Punctuation::SINGLES
        .iter()
        .copied()
        .find(|punctuation| text.starts_with(punctuation.text()))
}

// A string, whose opening quote is known to be there.
fn string_at(alloc: Global, text: &[u8]) -> Result<Option<(TokenKind, usize)>, AllocError>
    ensures { IfOk result (λ found. found ≡ spec.string_at text.now) }
{
    let [_quote, rest @ ..] = text else {
        return Ok(None);
    };
    let inner = string_bytes(rest);
    if is_closed(&rest[inner.len()..]) {
        let text = StringLiteral::new(inner.to_vec(alloc)?);
        Ok(Some((TokenKind::StringLiteral(text), inner.len() + 2)))
    } else {
        Ok(None)
    }
}

// The front that a string may have between its quotes.
fn string_bytes(text: &[u8]) -> &[u8]
    ensures { result.now ≡ take_while spec_of.is_string_byte text.now }
{
    &text[..string_length(text)]
}

fn string_length(text: &[u8]) -> usize
    ensures within { result ≤ length text.now }
    ensures run { result ≡ length (take_while spec_of.is_string_byte text.now) }
{
    text.iter()
        .take_while(|byte| is_string_byte(**byte))
        .count()
}

// Whether a quote comes first.
fn is_closed(rest: &[u8]) -> bool
    ensures { result ≡ spec.is_closed rest.now }
{
    match rest {
        [] => false,
        [next, ..] => is_quote(*next),
    }
}
