// The numbers of the program's input one by one, each as soon as it is there.

ghost use Rattle.std.specs.Prelude.{◌≡◌, ◌≢◌, ◌+◌, ◌<◌, ℕ, ℤ, List, [], Option, length, true};
ghost use Rattle.std.specs.Prelude.{Err, IfOk, IfErr};
ghost use Rattle.strc_cli_input.specs.NumberReading.{HasPulled, HasSameBytes, IsBadWord, IsCounted};
ghost use Rattle.strc_cli_input.specs.NumberReading.{IsFilled, IsPulled, IsReadOn, IsScanned};
ghost use Rattle.strc_cli_input.specs.NumberReading.{IsWithin};
ghost use Rattle.strc_cli_input.specs.Reading.{Reads, byte_read, word_ended};

use crate::device::Source;
use crate::input::ReadStop;
use crate::numbers::{Word, signed, with_byte};
use std::alloc::{AllocError, Global};

// How many bytes are read at a time.
const PIECE: usize = 65536;

/// An input that is read number by number: it is asked for more bytes only where those that it has
/// given end no further number.
#[derive(Drop)]
pub struct NumberReader {
    /// The bytes of the last read, of which those from `next` up to `filled` are still to come.
    piece: Vec<u8>,
    next: usize,
    filled: usize,
    last: Word,
    /// How many numbers there were.
    count: u64,
    /// Whether the input has ended.
    ended: bool,
}

impl NumberReader {
    /// Nothing read.
    pub fn new(alloc: Global) -> Result<NumberReader, AllocError>
        ensures within { IfOk result IsWithin }
        ensures none { IfOk result (λ reader. reader.count ≡ 0) }
        ensures pulled { IfOk result (λ reader. (bytes : Option (List ℕ))
            → HasPulled bytes bytes [] reader) }
    {
        Ok(NumberReader {
            piece: empty_piece(alloc)?,
            next: 0,
            filled: 0,
            last: Word::Between,
            count: 0,
            ended: false,
        })
    }

    /// Reads on until a number ends, none where the input ends before. `BadInput` comes as soon as
    /// a word can't be a number any more, `Failed` where a read fails.
    pub fn pull<I: Source>(&mut self, input: &mut I) -> Result<Option<i32>, ReadStop>
        requires within { IsWithin self.old }
        requires count { self.old.count + 1 < 18446744073709551616 }
        ensures within { IsWithin self.new }
        ensures pulled { (first : Option (List ℕ)) (numbers : List ℤ)
            → HasPulled first (I.remaining input.old) numbers self.old
            → IsPulled first (I.remaining input.new) numbers result self.new }
        ensures count { IsCounted self.old.count result self.new.count }
        ensures failed { result ≡ Err ReadStop.Failed → I.has_failed input.new ≡ true }
        ensures steady { result ≢ Err ReadStop.Failed
            → I.has_failed input.new ≡ I.has_failed input.old }
    {
        while !self.ended {
            match self.scan() {
                Ok(None) => {}
                Ok(Some(number)) => return Ok(Some(number)),
                Err(stop) => return Err(stop),
            }
            self.next = 0;
            self.filled = 0;
            match input.read(&mut self.piece) {
                Ok(0) => {
                    self.ended = true;
                    return self.end_word();
                }
                Ok(count) => self.filled = count,
                Err(_) => return Err(ReadStop::Failed),
            }
        }
        Ok(None)
    }

    /// The next numbers, so many of them; fewer where the input ends before. `BadInput` and
    /// `Failed` as above, with the numbers before.
    pub fn fill<I: Source>(
        &mut self,
        input: &mut I,
        window: &mut Vec<i32>,
        need: usize,
    ) -> Result<bool, ReadStop>
        requires within { IsWithin self.old }
        requires count { self.old.count + need < 18446744073709551616 }
        ensures within { IsWithin self.new }
        ensures filled { (first : Option (List ℕ)) (numbers : List ℤ)
            → HasPulled first (I.remaining input.old) numbers self.old
            → IsFilled first (I.remaining input.new) numbers need result window.new.items self.new }
        ensures failed { result ≡ Err ReadStop.Failed → I.has_failed input.new ≡ true }
        ensures steady { result ≢ Err ReadStop.Failed
            → I.has_failed input.new ≡ I.has_failed input.old }
    {
        window.clear();
        while window.len() < need {
            match self.pull(input) {
                Ok(Some(number)) => match window.push(number) {
                    Ok(()) => {}
                    Err(_) => return Err(ReadStop::NoMemory),
                },
                Ok(None) => return Ok(false),
                Err(stop) => return Err(stop),
            }
        }
        Ok(true)
    }

    /// Reads the bytes at hand until a number ends.
    fn scan(&mut self) -> Result<Option<i32>, ReadStop>
        requires within { IsWithin self.old }
        requires count { self.old.count + 1 < 18446744073709551616 }
        ensures within { IsWithin self.new }
        ensures scanned { (numbers : List ℤ) → self.old.count ≡ length numbers
            → IsScanned numbers self.old result self.new }
        ensures count { IsCounted self.old.count result self.new.count }
        ensures ended { self.new.ended ≡ self.old.ended }
        ensures stopped { IfErr result IsBadWord }
    {
        while self.next < self.filled {
            let byte = self.piece[self.next];
            self.next += 1;
            match self.read_byte(byte) {
                Ok(None) => {}
                Ok(Some(number)) => return Ok(Some(number)),
                Err(stop) => return Err(stop),
            }
        }
        Ok(None)
    }

    /// Reads a byte.
    fn read_byte(&mut self, byte: u8) -> Result<Option<i32>, ReadStop>
        requires count { self.old.count + 1 < 18446744073709551616 }
        ensures read { (numbers : List ℤ) → self.old.count ≡ length numbers
            → IsReadOn (byte_read (Reads numbers self.old.last) byte) numbers result self.new }
        ensures same { HasSameBytes self.old self.new }
        ensures count { IsCounted self.old.count result self.new.count }
        ensures stopped { IfErr result IsBadWord }
    {
        if byte.is_ascii_whitespace() {
            return self.end_word();
        }
        match with_byte(self.last, byte) {
            Some(last) => {
                self.last = last;
                Ok(None)
            }
            None => Err(ReadStop::BadInput { word: self.count }),
        }
    }

    /// Ends the last word, where there is one.
    fn end_word(&mut self) -> Result<Option<i32>, ReadStop>
        requires count { self.old.count + 1 < 18446744073709551616 }
        ensures read { (numbers : List ℤ) → self.old.count ≡ length numbers
            → IsReadOn (word_ended numbers self.old.last) numbers result self.new }
        ensures same { HasSameBytes self.old self.new }
        ensures count { IsCounted self.old.count result self.new.count }
        ensures stopped { IfErr result IsBadWord }
    {
        match self.last {
            Word::Between => Ok(None),
            Word::Sign => Err(ReadStop::BadInput { word: self.count }),
            Word::Digits(negative, value) => match signed(negative, value) {
                Some(number) => {
                    self.last = Word::Between;
                    self.count += 1;
                    Ok(Some(number))
                }
                None => Err(ReadStop::BadInput { word: self.count }),
            },
        }
    }
}

/// Room for the bytes of a read.
fn empty_piece(alloc: Global) -> Result<Vec<u8>, AllocError>
    ensures { IfOk result (λ piece. 0 < length piece.items) }
{
    Vec::from_elem(alloc, 0, PIECE)
}
