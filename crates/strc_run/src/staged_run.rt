// The rounds of a plan by several workers.

ghost use Rattle.std.specs.Prelude.{◌≡◌, ◌<◌, ◌≤◌, length, IfErr, IfOk, IfSome};
ghost use Rattle.strc_stage_cut.specs.Cuts.{IsCutAt};
ghost use Rattle.strc_sched_outcome.specs.declared.outcome.Outcome.TheVariants.{Done};
ghost use Rattle.strc_stage_steps.specs.Plans.{need_of};
ghost use Rattle.strc_stage.specs.Answers.{AnswersPlan};
ghost use Rattle.strc_stage.specs.Running.{LacksMeans};
ghost use Rattle.strc_run.specs.Batches.{AreBatches, IsBatched, least_rounds, shared_batch};

use crate::sharing::{Batching, SharedRun, Sharing, batches_of};
use std::alloc::Global;
use std::sync::Wait;
use std::thread::Threads;
use strc_batch::{batch_of, chosen_batch};
use strc_lex_names::memory::NoMemory;
use strc_run_batches::by_stages::run_stages_by_batches;
use strc_run_links::Gate;
use strc_run_workers::stage_rounds::run_stages;
use strc_sched_outcome::outcome::{Outcome, Tape};
use strc_sched_outcome::run_refusal::RunRefusal;
use strc_stage_plan::plan::Plan;
use strc_stage_steps::Stage;
use strc_stage_weights::bounds::weighed_bounds;
use strc_stage_weights::step_rounds::{round_work, rounds_for_step};

/// Start-up and so many rounds by the stages of the plan: by batches of one round at least and by
/// stages of even work, where these come to their end; else one by one, which tells the fault.
pub(crate) fn run_staged<G: Gate<Stage>, R: Threads + Wait + Sync>(
    rt: &R,
    alloc: Global,
    plan: &Plan,
    input: &[i32],
    rounds: u32,
    sharing: Sharing,
    gate: &G,
) -> Result<SharedRun, RunRefusal>
    requires rounds { 0 < rounds }
    requires workers { 1 < sharing.workers }
    requires nodes { 0 < length plan.now.graph.nodes }
    requires enough { need_of plan.now rounds ≤ length input.now }
    ensures answer { IfOk result (λ run. AnswersPlan plan.now input.now rounds run.outcome) }
    ensures batches { IfOk result (λ run. AreBatches plan.now sharing rounds run.batches) }
    ensures means { IfErr result (LacksMeans plan.now input.now) }
{
    let workers = sharing.workers;
    let Ok(each) = wanted_batch(alloc, plan, rounds, sharing) else {
        return Err(RunRefusal::NoMemory);
    };
    if let Batching::One = sharing.batching {
        return run_by_rounds(rt, alloc, plan, input, rounds, workers, gate, each, false);
    }
    match batched_tapes(rt, alloc, plan, input, rounds, workers, each, gate) {
        Some(tapes) => Ok(SharedRun {
            outcome: Outcome::Done(tapes),
            batches: batches_of(each, rounds, false),
        }),
        None => run_by_rounds(rt, alloc, plan, input, rounds, workers, gate, each, true),
    }
}

/// Start-up and so many rounds by the stages of the plan, one by one, where batches are to have so
/// many, and came to no end or weren't begun.
fn run_by_rounds<G: Gate<Stage>, R: Threads + Wait + Sync>(
    rt: &R,
    alloc: Global,
    plan: &Plan,
    input: &[i32],
    rounds: u32,
    workers: u32,
    gate: &G,
    each: u32,
    fell_back: bool,
) -> Result<SharedRun, RunRefusal>
    requires rounds { 0 < rounds }
    requires workers { 0 < workers }
    requires nodes { 0 < length plan.now.graph.nodes }
    requires enough { need_of plan.now rounds ≤ length input.now }
    ensures answer { IfOk result (λ run. AnswersPlan plan.now input.now rounds run.outcome) }
    ensures batches { IfOk result (λ run. IsBatched each rounds run.batches) }
    ensures means { IfErr result (LacksMeans plan.now input.now) }
{
    match run_stages(rt, alloc, plan, input, rounds, workers, gate) {
        Ok(outcome) => Ok(SharedRun {
            outcome,
            batches: batches_of(each, rounds, fell_back),
        }),
        Err(refusal) => Err(refusal),
    }
}

/// The tapes of so many rounds by batches of so many; none where a firing faults, where the plan
/// has no such batch, where memory runs out for it, or where a thread is refused.
fn batched_tapes<G: Gate<Stage>, R: Threads + Wait + Sync>(
    rt: &R,
    alloc: Global,
    plan: &Plan,
    input: &[i32],
    rounds: u32,
    workers: u32,
    each: u32,
    gate: &G,
) -> Option<Vec<Tape>>
    requires workers { 0 < workers }
    requires nodes { 0 < length plan.now.graph.nodes }
    requires enough { need_of plan.now rounds ≤ length input.now }
    ensures { IfSome result (λ tapes. AnswersPlan plan.now input.now rounds (Done tapes)) }
{
    if each == 0 || rounds < each {
        return None;
    }
    let Ok(batch) = batch_of(alloc, plan, each) else {
        return None;
    };
    let Ok(bounds) = bounds_of_work(alloc, plan, workers) else {
        return None;
    };
    match run_stages_by_batches(rt, alloc, plan, input, rounds, bounds, &batch, gate) {
        Ok(found) => found,
        Err(_) => None,
    }
}

/// How many rounds a batch is to have, so that each stage steps some times while the others do.
fn wanted_batch(alloc: Global, plan: &Plan, rounds: u32, sharing: Sharing) -> Result<u32, NoMemory>
    requires workers { 1 < sharing.workers }
    requires nodes { 0 < length plan.now.graph.nodes }
    ensures { IfOk result (λ wanted. wanted ≡ shared_batch plan.now sharing rounds) }
{
    let workers = sharing.workers;
    match sharing.batching {
        Batching::One => Ok(1),
        Batching::Chosen => {
            let least = step_rounds(alloc, plan, workers)?;
            Ok(chosen_batch(plan, rounds / workers, least))
        }
        Batching::Of(count) => Ok(count),
    }
}

/// How many rounds a worker's step is to have, so that its work is worth handing its parcel on; one
/// where one worker does all.
fn step_rounds(alloc: Global, plan: &Plan, workers: u32) -> Result<u32, NoMemory>
    ensures { IfOk result (λ least. least ≡ least_rounds plan.now workers) }
{
    if 1 < workers {
        Ok(rounds_for_step(round_work(alloc, plan)?, workers))
    } else {
        Ok(1)
    }
}

/// The bounds of stages of even work.
fn bounds_of_work(alloc: Global, plan: &Plan, workers: u32) -> Result<Vec<usize>, NoMemory>
    requires workers { 0 < workers }
    requires nodes { 0 < length plan.now.graph.nodes }
    ensures { IfOk result (λ bounds. IsCutAt plan.now bounds.items) }
{
    plan.known();
    weighed_bounds(alloc, plan, workers)
}
