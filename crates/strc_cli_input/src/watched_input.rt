// An input whose last bytes are kept, so that a person can be shown the word that is no number.

ghost use Rattle.std.specs.Prelude.{◌≡◌, ◌≤◌, length};

use crate::device::Source;
use crate::numbers::{Word, signed, with_byte};
use memchr::memchr_iter;
use std::alloc::{AllocError, Global};
use std::io;

// How many bytes of a word are shown.
const SHOWN: usize = 40;

// How many are kept: one more tells that the word is longer.
const KEPT: usize = SHOWN + 1;

/// An input whose last bytes are kept, with how many lines end before them.
#[derive(Drop)]
pub struct WatchedInput<I> {
    input: I,
    /// How many lines end before the bytes of the last read.
    lines: u64,
    /// How a word begins that goes on in these bytes; at most 41 bytes of it.
    begun: Vec<u8>,
    /// The bytes of the last read.
    piece: Vec<u8>,
}

/// A word of the input.
#[derive(Drop)]
struct FoundWord {
    /// At most 41 bytes of it.
    bytes: Vec<u8>,
    /// Where it begins in the bytes of the last read; 0 where it begins before them.
    begin: usize,
}

impl<I> WatchedInput<I> {
    /// An input of which nothing is read.
    pub fn new(alloc: Global, input: I) -> WatchedInput<I>
        ensures { result.input ≡ input }
    {
        WatchedInput {
            input,
            lines: 0,
            begun: Vec::new(alloc),
            piece: Vec::new(alloc),
        }
    }

    /// A line that shows the first word of the last read that writes no number, and in which line
    /// of the input it is, from 1; no bytes where there is none. Of a long word 40 bytes are shown,
    /// and `..`; one that a terminal might obey as `\x1b`. An error comes where memory runs out.
    pub fn wrong_word_line(&self, alloc: Global) -> Result<Vec<u8>, AllocError> {
        let mut line = Vec::new(alloc);
        let Some(word) = self.wrong_word(alloc)? else {
            return Ok(line);
        };
        let before = &self.piece[..word.begin.min(self.piece.len())];
        let number = self
            .lines
            .saturating_add(lines_in(before))
            .saturating_add(1);
        line.extend_from_slice(b"hint: this is `")?;
        push_shown(alloc, &mut line, &word.bytes)?;
        let place = format!(in alloc; "`, in line {number}\n")?;
        line.extend_from_slice(place.as_bytes())?;
        Ok(line)
    }

    /// The first word that writes no number.
    fn wrong_word(&self, alloc: Global) -> Result<Option<FoundWord>, AllocError> {
        let mut bytes = self.begun.to_vec(alloc)?;
        let mut begin = 0;
        for at in 0..self.piece.len() {
            let byte = self.piece[at];
            if !byte.is_ascii_whitespace() {
                push_kept(&mut bytes, byte)?;
                continue;
            }
            if writes_none(&bytes) {
                return Ok(Some(FoundWord { bytes, begin }));
            }
            bytes.clear();
            begin = at + 1;
        }
        if writes_none(&bytes) {
            Ok(Some(FoundWord { bytes, begin }))
        } else {
            Ok(None)
        }
    }

    /// Keeps the bytes of a read in place of those of the one before; fewer where memory runs out.
    fn keep(&mut self, bytes: &[u8])
        ensures { self.new.input ≡ self.old.input }
    {
        self.lines = self.lines.saturating_add(lines_in(&self.piece));
        if push_begun(&mut self.begun, &self.piece).is_err() {
            self.begun.clear();
        }
        self.piece.clear();
        if self.piece.extend_from_slice(bytes).is_err() {
            self.piece.clear();
        }
    }
}

impl<I: Source> Source for WatchedInput<I> {
    ghost remaining = { λ w. I.remaining w.input };

    ghost has_failed = { λ w. I.has_failed w.input };

    ghost reads_left = { λ w. I.reads_left w.input };

    fn read(&mut self, buffer: &mut [u8]) -> io::Result<usize> {
        let outcome = self.input.read(buffer);
        match outcome {
            Ok(count) if count > 0 => self.keep(&buffer[..count]),
            _ => {}
        }
        outcome
    }

    fn failed(&self) -> bool {
        self.input.failed()
    }

    fn left(&self) -> u64 {
        self.input.left()
    }
}

/// How many lines end in these bytes.
fn lines_in(bytes: &[u8]) -> u64 {
    memchr_iter(b'\n', bytes).count() as u64
}

/// How a word begins that the bytes after these go on with, of the word that went on with these.
fn push_begun(begun: &mut Vec<u8>, bytes: &[u8]) -> Result<(), AllocError> {
    let begin = last_begin(bytes);
    if begin > 0 {
        begun.clear();
    }
    for byte in &bytes[begin..] {
        push_kept(begun, *byte)?;
    }
    Ok(())
}

/// Where the last word of these bytes begins, behind the last white space; 0 without any.
fn last_begin(bytes: &[u8]) -> usize
    ensures { result ≤ length bytes.now }
{
    for past in 0..bytes.len() {
        let at = bytes.len() - 1 - past;
        if bytes[at].is_ascii_whitespace() {
            return at + 1;
        }
    }
    0
}

/// A byte more of a word, of which so many are kept.
fn push_kept(word: &mut Vec<u8>, byte: u8) -> Result<(), AllocError> {
    if word.len() < KEPT {
        word.push(byte)?;
    }
    Ok(())
}

/// Adds how a word begins.
fn push_shown(alloc: Global, line: &mut Vec<u8>, word: &[u8]) -> Result<(), AllocError> {
    for byte in &word[..word.len().min(SHOWN)] {
        if byte.is_ascii_control() {
            let code = format!(in alloc; "\\x{:02x}", *byte)?;
            line.extend_from_slice(code.as_bytes())?;
        } else {
            line.push(*byte)?;
        }
    }
    if word.len() > SHOWN {
        line.extend_from_slice(b"..")?;
    }
    Ok(())
}

/// Whether a word writes no number; no bytes are no word.
fn writes_none(bytes: &[u8]) -> bool {
    let mut word = Word::Between;
    for byte in bytes {
        match with_byte(word, *byte) {
            Some(more) => word = more,
            None => return true,
        }
    }
    match word {
        Word::Between => false,
        Word::Sign => true,
        Word::Digits(negative, value) => signed(negative, value).is_none(),
    }
}
