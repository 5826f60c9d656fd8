// Reading the program's input.

ghost use Rattle.std.specs.Prelude.{◌≡◌, ◌≢◌, ℕ, ℤ, List, Result, true, Err};
ghost use Rattle.strc_cli_input.specs.ReadAnswers.{AreNumbers};
ghost use Rattle.strc_cli_input.specs.ReadInput as spec;
ghost use Rattle.strc_cli_input.specs.ReadInput.{ReadsNumbers, IsEnded};

use crate::device::Source;
use crate::input_laws::{fails_for_good, reads_in_pieces, reads_ints};
use crate::numbers::{InputError, Numbers};
use std::alloc::Global;

// How many bytes are read at a time.
const PIECE: usize = 65536;

/// Why the input gives no numbers.
#[derive(Drop)]
pub enum ReadStop {
    /// A word writes no number; its number, from 0.
    BadInput { word: u64 },
    /// A read failed.
    Failed,
    /// Memory ran out.
    NoMemory,
}

/// The numbers that the input's bytes write, read to the end, or to the first word that writes
/// none.
pub fn read_numbers<I: Source>(alloc: Global, input: &mut I) -> Result<Vec<i32>, ReadStop>
    ensures numbers { ReadsNumbers (I.remaining input.old) result }
    ensures failed { result ≡ Err ReadStop.Failed → I.has_failed input.new ≡ true }
    ensures steady { result ≢ Err ReadStop.Failed
        → I.has_failed input.new ≡ I.has_failed input.old }
{
    // Read in pieces, the numbers are those of the whole input.
    reads_in_pieces();
    reads_ints();
    fails_for_good();
    let mut numbers = Numbers::new(alloc);
    let mut piece = [0u8; PIECE];
    loop {
        match input.read(&mut piece) {
            Ok(0) => return ended(numbers.finish()),
            Ok(count) => match numbers.read(&piece[..count]) {
                Ok(()) => {}
                Err(error) => return Err(stop_of(error)),
            },
            Err(_) => return Err(ReadStop::Failed),
        }
    }
}

// The numbers of an input that has ended.
fn ended(numbers: Result<Vec<i32>, InputError>) -> Result<Vec<i32>, ReadStop>
    ensures { (expected : Result (List ℤ) ℕ) → AreNumbers expected numbers
        → IsEnded expected result }
{
    match numbers {
        Ok(numbers) => Ok(numbers),
        Err(error) => Err(stop_of(error)),
    }
}

// Why no more is read.
fn stop_of(error: InputError) -> ReadStop
    ensures { result ≡ spec.stop_of error }
{
    match error {
        InputError::BadInput { word } => ReadStop::BadInput { word },
        InputError::NoMemory => ReadStop::NoMemory,
    }
}
