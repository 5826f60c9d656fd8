// The tapes of an outcome.

ghost use Rattle.std.specs.Prelude.{◌≡◌, IfNone, IfSome};
ghost use Rattle.strc_sched_outcome.specs.declared.outcome.Outcome.TheVariants.{Done};
ghost use Rattle.strc_run_batches.specs.Batched.{IsNeverDone};

use strc_sched_outcome::outcome::{Outcome, Tape};

/// The tapes of an outcome without a fault.
pub fn done_tapes(outcome: Outcome) -> Option<Vec<Tape>>
    ensures done { IfSome result (λ tapes. outcome ≡ Done tapes) }
    ensures other { IfNone result (IsNeverDone outcome) }
{
    match outcome {
        Outcome::Done(tapes) => Some(tapes),
        Outcome::Fault { .. } => None,
    }
}
