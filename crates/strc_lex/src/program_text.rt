// Reading a program's text.

ghost use Rattle.std.specs.Prelude.{◌≡◌, ◌≢◌, ◌+◌, IfOk, IfSome, take};
ghost use Rattle.std.specs.IoError.{error_kind};
ghost use Rattle.strc_lex.specs.Text.{text_limit};

use crate::lexer::TEXT_LIMIT;
use std::alloc::Global;
use std::io;
use std::io::{ErrorKind, Read};
use thiserror::Error;

// A text of more bytes than a program may have is read no further.
const MOST_BYTES: u64 = TEXT_LIMIT as u64 + 1;

/// Why a text could not be read.
#[derive(Drop, Debug, Error)]
pub enum TextFault {
    /// The reader failed.
    #[error("the text can't be read: {0}")]
    Failed(io::Error),
    /// Memory ran out.
    #[error("out of memory for the text")]
    NoMemory,
}

/// The bytes of a text, as many as the reader has but at most 1,048,577: one more than a text may
/// have.
pub fn read_text<R: Read>(alloc: Global, reader: &mut R) -> Result<Vec<u8>, TextFault>
    ensures read { IfOk result (λ text. IfSome (R.remaining reader.old) (λ bytes.
        text.items ≡ take (text_limit + 1) bytes)) }
    ensures failed { (error : _) → result ≡ Err (TextFault.Failed error)
        → error_kind error ≢ ErrorKind.OutOfMemory }
{
    let mut text = Vec::new(alloc);
    match reader.take(MOST_BYTES).read_to_end(&mut text) {
        Ok(_) => Ok(text),
        Err(error) => match error.kind() {
            ErrorKind::OutOfMemory => Err(TextFault::NoMemory),
            _ => Err(TextFault::Failed(error)),
        },
    }
}
