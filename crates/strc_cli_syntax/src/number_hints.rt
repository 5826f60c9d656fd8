// Hints on a number that isn't one here: of another base, with zeros or an exponent, or too large.

ghost use Rattle.std.specs.Prelude.{OnOk};
ghost use Rattle.strc_cli_syntax.specs.Words.{GoesOnWithHint};

use crate::hint_words::push_words;
use strc_cli_diagnostics::message::Message;
use strc_lex_names::memory::NoMemory;

/// The greatest number of 32 bits.
const GREATEST: u64 = 0xffff_ffff;

/// A hint on the number that begins at a byte of a text, where there is one.
pub fn push_number_hint(message: &mut Message, text: &[u8], at: usize) -> Result<(), NoMemory>
    ensures { OnOk result (GoesOnWithHint message.old message.new) }
{
    let rest = &text[at.min(text.len())..];
    if !is_digit(rest.first()) {
        return Ok(());
    }
    let (digits, base) = digits_and_base(rest);
    if ends_within_word(digits, base) {
        return push_words(
            message,
            b"numbers are decimal digits alone, of 32 bits with a sign",
        );
    }
    push_value(message, value_of(digits, base))
}

/// The digits of a number as C writes it, and their base: 16 after `0x`, 2 after `0b`, 8 after `0o`
/// or another 0, else 10.
fn digits_and_base(number: &[u8]) -> (&[u8], u64) {
    match (number.first(), number.get(1)) {
        (Some(b'0'), Some(b'x' | b'X')) => (without_prefix(number), 16),
        (Some(b'0'), Some(b'b' | b'B')) => (without_prefix(number), 2),
        (Some(b'0'), Some(b'o' | b'O')) => (without_prefix(number), 8),
        (Some(b'0'), Some(b'0'..=b'9')) => (number, 8),
        _ => (number, 10),
    }
}

fn without_prefix(number: &[u8]) -> &[u8] {
    match number.get(2..) {
        Some(digits) => digits,
        None => b"",
    }
}

/// Whether the word that begins with digits of a base goes on after them, or has none.
fn ends_within_word(word: &[u8], base: u64) -> bool {
    let mut count: usize = 0;
    for byte in word {
        match digit_of(*byte) {
            Some(digit) if digit < base => count = count.saturating_add(1),
            Some(_) => return true,
            None => return count == 0 || is_of_word(*byte),
        }
    }
    count == 0
}

/// Whether a byte that is no digit goes on a word.
fn is_of_word(byte: u8) -> bool {
    match byte {
        b'a'..=b'z' | b'A'..=b'Z' | b'_' => true,
        _ => false,
    }
}

fn is_digit(byte: Option<&u8>) -> bool {
    match byte {
        Some(b'0'..=b'9') => true,
        _ => false,
    }
}

/// The number that the first digits spell, to this base; past 32 bits some greater one.
fn value_of(digits: &[u8], base: u64) -> u64 {
    let mut value: u64 = 0;
    for byte in digits {
        match digit_of(*byte) {
            Some(digit) if digit < base && value <= GREATEST => {
                value = value.saturating_mul(base).saturating_add(digit);
            }
            _ => return value,
        }
    }
    value
}

/// The value of a digit.
fn digit_of(byte: u8) -> Option<u64> {
    match byte {
        b'0'..=b'9' => Some(u64::from(byte - b'0')),
        b'a'..=b'f' => Some(u64::from(byte - b'a') + 10),
        b'A'..=b'F' => Some(u64::from(byte - b'A') + 10),
        _ => None,
    }
}

/// How the number is written, as 32 bits with a sign.
fn push_value(message: &mut Message, value: u64) -> Result<(), NoMemory>
    ensures { OnOk result (GoesOnWithHint message.old message.new) }
{
    if value > GREATEST {
        return push_words(message, b"a number has 32 bits");
    }
    if value > 0x7fff_ffff {
        return push_written(
            message,
            b"its 32 bits are the number -",
            GREATEST - value + 1,
        );
    }
    push_written(message, b"it is written ", value)
}

/// How a number is written, after these words.
fn push_written(message: &mut Message, before: &[u8], number: u64) -> Result<(), NoMemory>
    ensures { OnOk result (GoesOnWithHint message.old message.new) }
{
    message.hint()?;
    message.add(before)?;
    message.number(number)?;
    Ok(message.add(b": numbers are decimal, of 32 bits with a sign")?)
}
