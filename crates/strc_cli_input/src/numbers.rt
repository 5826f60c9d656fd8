// The numbers of the program's input, read in pieces of any size.

ghost use Rattle.std.specs.Prelude.{◌≡◌, length, nat_lt, Some, None, if◌then◌else◌};
ghost use Rattle.strc_cli_input.specs.Numbers as numbers;
ghost use Rattle.strc_cli_input.specs.Reading as spec;
ghost use Rattle.strc_cli_input.specs.Reading.{unread, bytes_read, byte_read, word_ended, ended};
ghost use Rattle.strc_cli_input.specs.ReadAnswers.{reading_of, IsRead, AreNumbers};
ghost use Rattle.strc_cli_input.specs.declared.numbers.InputError.TheVariants as error;

use std::alloc::{AllocFailed, Global};
use thiserror::Error;

/// Where the last word is.
#[derive(Clone, Copy)]
pub(crate) enum Word {
    /// White space, or nothing, came last.
    Between,
    /// `-` came last.
    Sign,
    /// Digits so far, whether `-` is before them, and what they write.
    Digits(bool, u32),
}

/// Why the input has no numbers. Words are numbered from 0.
#[derive(Clone, Copy, Debug, Error)]
pub enum InputError {
    /// A word isn't a number of 32 bits: an optional `-` and decimal digits.
    #[error("word {word} of the input, counted from 0, isn't a number of 32 bits")]
    BadInput { word: u64 },
    /// Memory was refused.
    #[error("out of memory for the numbers of the input")]
    NoMemory,
}

impl<T: Drop> From<AllocFailed<T>> for InputError {
    ghost from_gives = { λ _ e. e ≡ error.NoMemory };

    fn from(_error: AllocFailed<T>) -> InputError {
        InputError::NoMemory
    }
}

/// The numbers of the input as far as it has been read, and where its last word is.
#[derive(Drop)]
pub struct Numbers {
    values: Vec<i32>,
    last: Word,
}

impl Numbers {
    /// Nothing read.
    pub fn new(alloc: Global) -> Numbers
        ensures { reading_of result ≡ unread }
    {
        Numbers {
            values: Vec::new(alloc),
            last: Word::Between,
        }
    }

    /// Reads on, from the next bytes of the input. `BadInput` comes as soon as a word can't be a
    /// number any more; then, and after `NoMemory`, the numbers are of no use.
    pub fn read(&mut self, bytes: &[u8]) -> Result<(), InputError>
        ensures { IsRead (bytes_read (reading_of self.old) bytes.now) result (reading_of self.new) }
    {
        for byte in bytes {
            match self.read_byte(*byte) {
                Ok(()) => {}
                Err(error) => return Err(error),
            }
        }
        Ok(())
    }

    /// Reads a byte.
    fn read_byte(&mut self, byte: u8) -> Result<(), InputError>
        ensures { IsRead (byte_read (reading_of self.old) byte) result (reading_of self.new) }
    {
        if byte.is_ascii_whitespace() {
            return self.end_word();
        }
        match with_byte(self.last, byte) {
            Some(last) => {
                self.last = last;
                Ok(())
            }
            None => Err(self.bad_input()),
        }
    }

    /// Ends the last word, where there is one.
    fn end_word(&mut self) -> Result<(), InputError>
        ensures { IsRead (word_ended self.old.values.items self.old.last) result
            (reading_of self.new) }
    {
        match self.last {
            Word::Between => Ok(()),
            Word::Sign => Err(self.bad_input()),
            Word::Digits(negative, value) => match signed(negative, value) {
                Some(number) => {
                    self.values.push(number)?;
                    self.last = Word::Between;
                    Ok(())
                }
                None => Err(self.bad_input()),
            },
        }
    }

    /// The last word is no number.
    fn bad_input(&self) -> InputError
        ensures { result ≡ error.BadInput (length self.now.values.items) }
    {
        InputError::BadInput {
            word: self.values.len() as u64,
        }
    }

    /// The numbers, where the input ends here.
    pub fn finish(self) -> Result<Vec<i32>, InputError>
        ensures { AreNumbers (ended (reading_of self)) result }
    {
        let mut numbers = self;
        numbers.end_word()?;
        Ok(numbers.values)
    }
}

/// A word with one byte more, which is no white space; none where it can't be a number any more.
pub(crate) fn with_byte(last: Word, byte: u8) -> Option<Word>
    ensures { result ≡ spec.with_byte last byte }
{
    match last {
        Word::Between if byte == b'-' => Some(Word::Sign),
        Word::Between => extended(false, 0, byte),
        Word::Sign => extended(true, 0, byte),
        Word::Digits(negative, value) => extended(negative, value, byte),
    }
}

/// Digits with one more.
fn extended(negative: bool, value: u32, byte: u8) -> Option<Word>
    ensures { result ≡ spec.extended negative value byte }
{
    if !byte.is_ascii_digit() {
        return None;
    }
    fitting(negative, u64::from(value) * 10 + u64::from(byte - b'0'))
}

/// Digits that write this number, where it has 32 bits.
fn fitting(negative: bool, value: u64) -> Option<Word>
    ensures { result ≡ spec.fitting negative value }
{
    if value > most(negative) {
        None
    } else {
        Some(Word::Digits(negative, value as u32))
    }
}

/// The greatest number after a sign.
fn most(negative: bool) -> u64
    ensures { result ≡ numbers.most negative }
{
    if negative { 2147483648 } else { 2147483647 }
}

/// The number after a sign, where it has 32 bits.
pub(crate) fn signed(negative: bool, value: u32) -> Option<i32>
    ensures { result ≡ (if nat_lt (numbers.most negative) value then None
        else Some (numbers.signed negative value)) }
{
    if u64::from(value) > most(negative) {
        None
    } else if negative {
        Some((-i64::from(value)) as i32)
    } else {
        Some(value as i32)
    }
}
