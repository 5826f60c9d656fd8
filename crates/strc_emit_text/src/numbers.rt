// Lists of numbers.

ghost use Rattle.std.specs.Prelude.{◌≡◌, ◌++◌, ◌≤◌, ◌<◌, OnOk, length};
ghost use Rattle.strc_emit_text.specs.Texts.{texts_below};
ghost use Rattle.strc_emit_text.specs.Numbers as spec;

use crate::pieces::Piece::{Bytes, Integer};
use crate::pieces::push_pieces;
use strc_lex_names::memory::NoMemory;

/// Adds what an array begins with, but for zeros at its end: ` = {1, 2}`.
pub fn push_numbers(text: &mut Vec<u8>, numbers: &[i32]) -> Result<(), NoMemory>
    ensures { OnOk result (text.new.items ≡ text.old.items ++ spec.numbers_text numbers.now) }
{
    let count = kept(numbers);
    if count == 0 {
        return Ok(());
    }
    push_pieces(text, &[Bytes(b" = {")])?;
    push_first(text, numbers, count)?;
    push_pieces(text, &[Bytes(b"}")])
}

// Adds the first so many numbers.
fn push_first(text: &mut Vec<u8>, numbers: &[i32], count: usize) -> Result<(), NoMemory>
    requires { count ≤ length numbers.now }
    ensures { OnOk result (text.new.items ≡ text.old.items
        ++ texts_below (spec.number_text numbers.now) count) }
{
    for at in 0..count {
        push_number_at(text, numbers, at)?;
    }
    Ok(())
}

// Adds a number, after what parts it from the one before.
fn push_number_at(text: &mut Vec<u8>, numbers: &[i32], at: usize) -> Result<(), NoMemory>
    requires { at < length numbers.now }
    ensures { OnOk result (text.new.items ≡ text.old.items ++ spec.number_text numbers.now at) }
{
    push_pieces(text, &[Bytes(separator(at)), Integer(numbers[at])])
}

// What is before a number: sixteen are in a line.
fn separator(at: usize) -> &'static [u8]
    ensures { result.now ≡ spec.separator at }
{
    if at == 0 {
        b""
    } else if at % 16 == 0 {
        b",\n    "
    } else {
        b", "
    }
}

// How many numbers there are up to the last one that isn't 0.
fn kept(numbers: &[i32]) -> usize
    ensures kept { result ≡ spec.kept numbers.now (length numbers.now) }
    ensures within { result ≤ length numbers.now }
{
    let mut count = numbers.len();
    while count > 0 {
        if numbers[count - 1] != 0 {
            return count;
        }
        count -= 1;
    }
    0
}
