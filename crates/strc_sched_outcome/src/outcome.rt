// How a run ends.

use strc_work_meaning::fault::LocatedCause;
use strc_work_meaning::word::Word;

/// The words that a node gives: a program has one tape for each node that prints or writes, in
/// order of their numbers.
#[derive(Drop)]
pub struct Tape {
    /// The node, by its number.
    pub node: u32,
    pub words: Vec<Word>,
}

/// The tapes of all rounds; or the firing that faulted, with the tapes as they were before its
/// round. A fault in start-up leaves each tape empty.
#[derive(Drop)]
pub enum Outcome {
    Done(Vec<Tape>),
    Fault {
        /// The node that faulted, by its number.
        node: u32,
        /// How often it had fired before, since the beginning.
        firing: u64,
        round: Round,
        cause: LocatedCause,
        tapes: Vec<Tape>,
    },
}

/// When a firing took place.
#[derive(Clone, Copy)]
pub enum Round {
    /// Before the first round.
    Startup,
    /// In a round; rounds are numbered from 0.
    At(u32),
}
