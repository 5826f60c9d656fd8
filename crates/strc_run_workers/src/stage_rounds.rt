// The rounds of a plan, by its stages.

ghost use Rattle.std.specs.Prelude.{◌<◌, ◌≤◌, length, IfOk, IfErr};
ghost use Rattle.strc_stage_core.specs.States.{IsStart};
ghost use Rattle.strc_stage_steps.specs.Plans.{need_of};
ghost use Rattle.strc_stage.specs.Answers.{AnswersPlan};
ghost use Rattle.strc_stage_cut.specs.Launches.{IsLaunch, start_of};
ghost use Rattle.strc_stage.specs.Running.{HasEnded, IsBegun, IsEndOf};
ghost use Rattle.strc_run_workers.specs.Leftovers.{Drives};
ghost use Rattle.strc_stage.specs.Running.{LacksAfter, LacksMeans};
ghost use Rattle.strc_stage_cut.specs.declared.stage_ring.Launch.TheVariants as launched;

use crate::leftover_ring::driven;
use std::alloc::Global;
use std::sync::Wait;
use std::thread::Threads;
use strc_lex_names::memory::NoMemory;
use strc_run_links::{Failure, Gate, run_ring};
use strc_sched_outcome::outcome::Outcome;
use strc_sched_outcome::run_refusal::RunRefusal;
use strc_stage::collector_outcome::{faulted, outcome_of};
use strc_stage_cut::{Launch, cut, launch};
use strc_stage_plan::plan::Plan;
use strc_stage_steps::{Collector, Stage, Start};

/// Start-up, and then so many rounds by the stages of the plan for so many workers, one for each of
/// them or for each group of nodes where these are fewer (Gordon, Thies and Amarasinghe 2006:
/// coarse-grained software pipelining). Each stage has a thread of its own, and they hand parcels
/// on in a ring, a round's items each; this thread collects what is printed. Each step of a stage
/// is the gate's. It waits.
///
/// For whatever stream the plan's graph is the flat graph of, the outcome is the answer of the
/// stream equations at the schedule's counts, as that of one worker is. `NoMemory` comes where
/// memory runs out, `NoWorker` where a thread is refused, which is after start-up.
pub fn run_stages<G: Gate<Stage>, R: Threads + Wait + Sync>(
    rt: &R,
    alloc: Global,
    plan: &Plan,
    input: &[i32],
    rounds: u32,
    workers: u32,
    gate: &G,
) -> Result<Outcome, RunRefusal>
    requires rounds { 0 < rounds }
    requires workers { 0 < workers }
    requires nodes { 0 < length plan.now.graph.nodes }
    requires enough { need_of plan.now rounds ≤ length input.now }
    ensures answer { IfOk result (AnswersPlan plan.now input.now rounds) }
    ensures means { IfErr result (LacksMeans plan.now input.now) }
{
    plan.known();
    match begin(alloc, plan, input, rounds, workers) {
        Ok(launched) => run_launched(rt, alloc, plan, launched, gate),
        Err(_) => Err(RunRefusal::NoMemory),
    }
}

/// Start-up of a plan's stages for so many workers.
fn begin(
    alloc: Global,
    plan: &Plan,
    input: &[i32],
    rounds: u32,
    workers: u32,
) -> Result<Launch, NoMemory>
    requires rounds { 0 < rounds }
    requires workers { 0 < workers }
    requires nodes { 0 < length plan.now.graph.nodes }
    ensures { IfOk result (IsLaunch plan.now input.now rounds workers) }
{
    let stages = cut(alloc, plan, workers)?;
    launch(alloc, stages, input, rounds)
}

/// What comes of start-up, and of the rounds after it.
fn run_launched<G: Gate<Stage>, R: Threads + Wait + Sync>(
    rt: &R,
    alloc: Global,
    plan: &Plan,
    launched: Launch,
    gate: &G,
) -> Result<Outcome, RunRefusal>
    requires start { IsBegun launched }
    ensures ended { IfOk result (IsEndOf plan.now launched) }
    ensures means { IfErr result (LacksAfter launched) }
{
    match launched {
        Launch::Going(ring) => run_rounds(rt, alloc, plan, ring, gate),
        Launch::Faulted {
            node,
            firing,
            cause,
        } => faulted(alloc, plan.graph().nodes(), node, firing, cause),
    }
}

/// A ring's rounds, and what they come to.
fn run_rounds<G: Gate<Stage>, R: Threads + Wait + Sync>(
    rt: &R,
    alloc: Global,
    plan: &Plan,
    ring: Start<Stage, Collector>,
    gate: &G,
) -> Result<Outcome, RunRefusal>
    requires start { IsStart (start_of ring) }
    ensures ended { IfOk result (HasEnded plan.now (start_of ring)) }
    ensures means { IfErr result (LacksAfter (launched.Going ring)) }
{
    match collected(rt, alloc, ring, gate) {
        Ok(collector) => outcome_of(alloc, plan, collector.into_parts()),
        Err(Failure::NoMemory) => Err(RunRefusal::NoMemory),
        Err(Failure::NoWorker) => Err(RunRefusal::NoWorker),
    }
}

/// The collector of a ring after its last parcel. Where a worker ended before that, this thread
/// lets happen what is left.
pub fn collected<G: Gate<Stage>, R: Threads + Wait + Sync>(
    rt: &R,
    alloc: Global,
    ring: Start<Stage, Collector>,
    gate: &G,
) -> Result<Collector, Failure>
    requires start { IsStart (start_of ring) }
    ensures { IfOk result (Drives (start_of ring)) }
{
    let parts = run_ring(rt, alloc, ring, gate)?;
    Ok(driven(alloc, parts)?)
}
