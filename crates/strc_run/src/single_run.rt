// The rounds of a plan by one worker.

ghost use Rattle.std.specs.Prelude.{◌≡◌, ◌<◌, ◌≤◌, length, IfErr, IfOk, IfSome};
ghost use Rattle.strc_sched_outcome.specs.declared.outcome.Outcome.TheVariants.{Done};
ghost use Rattle.strc_sched_outcome.specs.declared.run_refusal.RunRefusal.TheVariants as refused;
ghost use Rattle.strc_stage_steps.specs.Plans.{need_of};
ghost use Rattle.strc_stage.specs.Answers.{AnswersPlan};
ghost use Rattle.strc_run.specs.Batches.{IsBatched, wanted_batch};

use crate::sharing::{Batching, SharedRun, batches_of};
use std::alloc::Global;
use strc_batch::{batch_of, chosen_batch};
use strc_run_batches::by_batches::run_by_batches;
use strc_run_workers::alone::run_alone;
use strc_sched_outcome::outcome::{Outcome, Tape};
use strc_sched_outcome::run_refusal::RunRefusal;
use strc_stage_plan::plan::Plan;

/// Start-up and so many rounds on this thread: by batches, where these come to their end, else one
/// by one, which tells the fault.
pub(crate) fn run_single(
    alloc: Global,
    plan: &Plan,
    input: &[i32],
    rounds: u32,
    batching: Batching,
) -> Result<SharedRun, RunRefusal>
    requires enough { need_of plan.now rounds ≤ length input.now }
    ensures answer { IfOk result (λ run. AnswersPlan plan.now input.now rounds run.outcome) }
    ensures batches { 0 < length plan.now.graph.nodes → IfOk result (λ run.
        IsBatched (wanted_batch plan.now batching rounds 1) rounds run.batches) }
    ensures memory { IfErr result (λ refusal. refusal ≡ refused.NoMemory) }
{
    let each = match batching {
        _ if plan.graph().nodes().is_empty() => 1,
        Batching::One => 1,
        Batching::Chosen => chosen_batch(plan, rounds, 1),
        Batching::Of(count) => count,
    };
    match batched_tapes(alloc, plan, input, rounds, each) {
        Some(tapes) => Ok(SharedRun {
            outcome: Outcome::Done(tapes),
            batches: batches_of(each, rounds, false),
        }),
        None => match run_alone(alloc, plan, input, rounds) {
            Ok(outcome) => Ok(SharedRun {
                outcome,
                batches: batches_of(each, rounds, each > 1),
            }),
            Err(refusal) => Err(refusal),
        },
    }
}

/// The tapes of so many rounds by batches of so many; none where a firing faults, where the plan
/// has no such batch, or where memory runs out for it.
fn batched_tapes(
    alloc: Global,
    plan: &Plan,
    input: &[i32],
    rounds: u32,
    each: u32,
) -> Option<Vec<Tape>>
    requires enough { need_of plan.now rounds ≤ length input.now }
    ensures { IfSome result (λ tapes. AnswersPlan plan.now input.now rounds (Done tapes)) }
{
    if each < 2 || rounds < each || plan.graph().nodes().is_empty() {
        return None;
    }
    let Ok(batch) = batch_of(alloc, plan, each) else {
        return None;
    };
    match run_by_batches(alloc, plan, input, rounds, &batch) {
        Ok(found) => found,
        Err(_) => None,
    }
}
