// Why a command has no answer.

use strc_run_refusal::placed_refusal::PlacedRefusal;
use strc_sched_outcome::run_refusal::RunRefusal;

/// Why there is no answer.
#[derive(Drop)]
pub enum Stop {
    /// The text is refused.
    Refused(PlacedRefusal),
    /// The text is accepted, and a word of its input writes no number; its number, from 0.
    BadInput { word: u64 },
    /// The text is accepted, and isn't run.
    NotRun(RunRefusal),
    /// The text is accepted, and its C would have so many items, in the arrays of its channels and
    /// in the slots of its filters.
    ArrayLimit { items: u64 },
}
