// Why a ring has no parts.

use strc_lex_names::memory::NoMemory;

/// An allocation was refused, or a worker's thread.
#[derive(Clone, Copy, Debug)]
pub enum Failure {
    NoMemory,
    NoWorker,
}

impl From<NoMemory> for Failure {
    fn from(_refused: NoMemory) -> Failure {
        Failure::NoMemory
    }
}
