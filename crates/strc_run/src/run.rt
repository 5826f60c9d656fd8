// The rounds of a plan.

ghost use Rattle.std.specs.Prelude.{◌≡◌, ◌<◌, ◌≤◌, None, IfErr, IfOk, length};
ghost use Rattle.strc_stage.specs.Answers.{AnswersPlan};
ghost use Rattle.strc_stage_steps.specs.Plans.{need_of};
ghost use Rattle.strc_run.specs.Batches.{AreBatches, AreBatchesOf, outcome_of};
ghost use Rattle.strc_run.specs.Rounds.{AreWorkers, IsRunOf, IsWorkedRefusal, plan_reads};

use crate::sharing::{Batching, SharedRun, Sharing};
use crate::single_run::run_single;
use crate::staged_run::run_staged;
use std::alloc::Global;
use std::sync::Wait;
use std::thread::Threads;
use strc_run_links::Gate;
use strc_sched::plain::input_needed;
use strc_sched::served_rounds;
use strc_sched::served_rounds::rounds_served;
pub use strc_sched_outcome::outcome::{Outcome, Round};
pub use strc_sched_outcome::run_refusal::RunRefusal;
use strc_stage_plan::plan::Plan;
use strc_stage_steps::Stage;

/// The most workers that rounds are run by.
pub const WORKER_LIMIT: u32 = 64;

/// Start-up and so many rounds of a plan, by so many workers; without a number of rounds as many as
/// the input serves, at most 4,294,967,295. Where there are two workers or more, each stage of the
/// plan runs in a thread of its own, each of its steps is the gate's, and this call waits for them.
/// The outcome is the answer of the stream equations of whatever stream the plan's graph is the
/// flat graph of, and so the same for each number of workers, however nodes are split and fused; it
/// names the nodes of that graph.
///
/// `BadWorkers` comes where the number of workers isn't one from 1 to 64; then `RoundsNeeded` where
/// no number of rounds is given and the graph has no reader; then `InputShort` where the input has
/// fewer items than these rounds read, or than start-up reads where no number is given; `NoMemory`
/// where memory runs out, and `NoWorker` where a thread is refused; threads are started after
/// start-up, and only for some round.
pub fn run<G: Gate<Stage>, R: Threads + Wait + Sync>(
    rt: &R,
    alloc: Global,
    plan: &Plan,
    input: &[i32],
    rounds: Option<u32>,
    workers: u32,
    gate: &G,
) -> Result<Outcome, RunRefusal>
    ensures { IsRunOf plan.now input.now rounds workers result }
{
    let sharing = Sharing {
        workers,
        batching: Batching::One,
    };
    match run_shared(rt, alloc, plan, input, rounds, sharing, gate) {
        Ok(run) => Ok(run.outcome),
        Err(refusal) => Err(refusal),
    }
}

/// The same, by so many workers and so many rounds at a time, with the batches that there were.
/// However rounds are shared, the outcome is the same; a fault under batches is found by the run
/// anew, one by one.
pub fn run_shared<G: Gate<Stage>, R: Threads + Wait + Sync>(
    rt: &R,
    alloc: Global,
    plan: &Plan,
    input: &[i32],
    rounds: Option<u32>,
    sharing: Sharing,
    gate: &G,
) -> Result<SharedRun, RunRefusal>
    ensures run { IsRunOf plan.now input.now rounds sharing.workers (outcome_of result) }
    ensures batches { 0 < length plan.now.graph.nodes → IfOk result (λ run.
        AreBatchesOf plan.now input.now rounds sharing run.batches) }
{
    let workers = sharing.workers;
    if workers == 0 || workers > WORKER_LIMIT {
        return Err(RunRefusal::BadWorkers);
    }
    match rounds {
        Some(count) => run_rounds(rt, alloc, plan, input, count, sharing, gate),
        None => run_served(rt, alloc, plan, input, sharing, gate),
    }
}

/// As many rounds as the input serves.
fn run_served<G: Gate<Stage>, R: Threads + Wait + Sync>(
    rt: &R,
    alloc: Global,
    plan: &Plan,
    input: &[i32],
    sharing: Sharing,
    gate: &G,
) -> Result<SharedRun, RunRefusal>
    requires workers { AreWorkers sharing.workers }
    ensures run { IsRunOf plan.now input.now None sharing.workers (outcome_of result) }
    ensures batches { 0 < length plan.now.graph.nodes → IfOk result (λ run.
        AreBatchesOf plan.now input.now None sharing run.batches) }
{
    if !reads_input(plan) {
        return Err(RunRefusal::RoundsNeeded);
    }
    // An input that doesn't serve start-up is refused as one that doesn't serve 0 rounds.
    let served = rounds_served(plan.graph(), plan.schedule(), input.len() as u64);
    run_rounds(rt, alloc, plan, input, served.unwrap_or(0), sharing, gate)
}

/// So many rounds: on one thread where there is nothing to divide among workers, else by stages.
fn run_rounds<G: Gate<Stage>, R: Threads + Wait + Sync>(
    rt: &R,
    alloc: Global,
    plan: &Plan,
    input: &[i32],
    rounds: u32,
    sharing: Sharing,
    gate: &G,
) -> Result<SharedRun, RunRefusal>
    requires workers { AreWorkers sharing.workers }
    ensures answer { IfOk result (λ run. AnswersPlan plan.now input.now rounds run.outcome) }
    ensures batches { 0 < length plan.now.graph.nodes → IfOk result (λ run.
        AreBatches plan.now sharing rounds run.batches) }
    ensures enough { IfOk result (λ _. need_of plan.now rounds ≤ length input.now) }
    ensures refused { IfErr result (IsWorkedRefusal plan.now input.now rounds sharing.workers) }
{
    let graph = plan.graph();
    let need = numbers_read(plan, rounds);
    let got = input.len() as u64;
    if got < need {
        return Err(RunRefusal::InputShort { need, got });
    }
    if sharing.workers == 1 || rounds == 0 || graph.nodes().is_empty() {
        return run_single(alloc, plan, input, rounds, sharing.batching);
    }
    run_staged(rt, alloc, plan, input, rounds, sharing, gate)
}

/// How many numbers start-up and so many rounds read.
pub fn numbers_read(plan: &Plan, rounds: u32) -> u64
    ensures { result ≡ need_of plan.now rounds }
{
    input_needed(plan.graph(), plan.schedule(), rounds)
}

/// Whether a node of the plan's graph reads the program's input.
pub fn reads_input(plan: &Plan) -> bool
    ensures { result ≡ plan_reads plan.now }
{
    served_rounds::reads_input(plan.graph())
}
