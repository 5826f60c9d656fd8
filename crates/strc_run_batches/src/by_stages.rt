// The rounds of a plan by its stages, by batches.

ghost use Rattle.std.specs.Prelude.{◌≡◌, ◌<◌, ◌≤◌, length, IfNone, IfOk, IfSome, None, Some};
ghost use Rattle.strc_elab_graph.specs.NodeView.{graph_view};
ghost use Rattle.strc_sched_outcome.specs.declared.outcome.Outcome.TheVariants.{Done};
ghost use Rattle.strc_sched_rings.specs.Circuits.{circuit_view, IsReady};
ghost use Rattle.strc_sched_laws.specs.Circuits.{IsCircuit};
ghost use Rattle.strc_sched_machine.specs.Running.{IsMachine, machine_view};
ghost use Rattle.strc_stage_cut.specs.Cuts.{IsCutAt};
ghost use Rattle.strc_stage_cut.specs.Startups.{HasLeft};
ghost use Rattle.strc_stage_steps.specs.Plans.{need_of};
ghost use Rattle.strc_stage.specs.Answers.{AnswersPlan};
ghost use Rattle.strc_batch.specs.Batches.{IsBatchOf};
ghost use Rattle.strc_run_batches.specs.Batched.{Faults};
ghost use Rattle.strc_run_batches.specs.Ringed.{ComesByRing, HasRunRing, IsFault, TellsTapes};

use crate::done_tapes::done_tapes;
use crate::repeated_order::after_rounds;
use std::alloc::Global;
use std::sync::Wait;
use std::thread::Threads;
use strc_batch::Batch;
use strc_lex_names::memory::NoMemory;
use strc_run_links::{Failure, Gate};
use strc_run_workers::stage_rounds::collected;
use strc_sched_machine::machine::Machine;
use strc_sched_outcome::outcome::Tape;
use strc_sched_outcome::stop::Stop;
use strc_sched_rings::circuit::Circuit;
use strc_stage::collector_outcome::outcome_of;
use strc_stage_cut::{Startup, ring_by, start_up_in};
use strc_stage_plan::plan::Plan;
use strc_stage_steps::{CollectorParts, Stage};

/// Start-up, and then so many rounds by the stages of the plan that have these bounds: first those
/// rounds that are no whole batch, one by one on this thread, and then the batches, in which stages
/// hand on a batch's items at a time (Gordon, Thies and Amarasinghe 2006; Sermulins, Thies, Rabbah
/// and Amarasinghe 2005). It waits.
///
/// For whatever stream the plan's graph is the flat graph of, the tapes are those of the answer of
/// the stream equations at the plan's counts. There are none just where a firing faults; which one
/// is told by the rounds one by one. `NoMemory` comes where memory runs out, `NoWorker` where a
/// thread is refused.
pub fn run_stages_by_batches<G: Gate<Stage>, R: Threads + Wait + Sync>(
    rt: &R,
    alloc: Global,
    plan: &Plan,
    input: &[i32],
    rounds: u32,
    bounds: Vec<usize>,
    batch: &Batch,
    gate: &G,
) -> Result<Option<Vec<Tape>>, Failure>
    requires cut { IsCutAt plan.now bounds.items }
    requires enough { need_of plan.now rounds ≤ length input.now }
    requires nodes { 0 < length plan.now.graph.nodes }
    requires batch { IsBatchOf plan.now batch.now }
    ensures answer { IfOk result (λ found. IfSome found (λ tapes.
        AnswersPlan plan.now input.now rounds (Done tapes))) }
    ensures faults { IfOk result (λ found. IfNone found
        (Faults plan.now batch.now.sizes input.now rounds)) }
{
    match start_up_in(alloc, plan, input, batch.sizes())? {
        Startup::Ended { circuit, machine } => {
            run_rounds(
                rt, alloc, plan, &circuit, machine, rounds, bounds, batch, gate,
            )
        }
        Startup::Faulted { .. } => Ok(None),
    }
}

/// So many rounds of the machine that start-up left.
fn run_rounds<G: Gate<Stage>, R: Threads + Wait + Sync>(
    rt: &R,
    alloc: Global,
    plan: &Plan,
    circuit: &Circuit,
    machine: Machine,
    rounds: u32,
    bounds: Vec<usize>,
    batch: &Batch,
    gate: &G,
) -> Result<Option<Vec<Tape>>, Failure>
    requires cut { IsCutAt plan.now bounds.items }
    requires enough { need_of plan.now rounds ≤ length (circuit_view circuit.now).input }
    requires nodes { 0 < length plan.now.graph.nodes }
    requires batch { IsBatchOf plan.now batch.now }
    requires left { HasLeft plan.now batch.now.sizes (circuit_view circuit.now).input circuit.now
        machine }
    ensures { IfOk result (ComesByRing plan.now batch.now bounds.items (circuit_view circuit.now)
        (machine_view machine) rounds) }
{
    let rest = rounds % batch.rounds();
    let Some(later) = after_rounds(alloc, plan, circuit, machine, rest)? else {
        return Ok(None);
    };
    let steps = rounds / batch.rounds();
    let ended = run_ring(rt, alloc, plan, circuit, later, bounds, steps, batch, gate)?;
    Ok(tapes_of(alloc, plan, ended)?)
}

/// What the collector of a ring of stages comes to, which step so many times, a batch a step.
fn run_ring<G: Gate<Stage>, R: Threads + Wait + Sync>(
    rt: &R,
    alloc: Global,
    plan: &Plan,
    circuit: &Circuit,
    machine: Machine,
    bounds: Vec<usize>,
    steps: u32,
    batch: &Batch,
    gate: &G,
) -> Result<CollectorParts, Failure>
    requires cut { IsCutAt plan.now bounds.items }
    requires nodes { 0 < length plan.now.graph.nodes }
    requires batch { IsBatchOf plan.now batch.now }
    requires circuit { IsCircuit (graph_view plan.now.split.graph) (circuit_view circuit.now) }
    requires ready { IsReady circuit.now }
    requires machine { IsMachine (circuit_view circuit.now) machine }
    requires rings { length (machine_view machine).rings
        ≡ length (graph_view plan.now.split.graph).channels }
    ensures { IfOk result (HasRunRing plan.now batch.now bounds.items (circuit_view circuit.now)
        (machine_view machine) steps) }
{
    let ring = ring_by(alloc, plan, batch.units(), bounds, circuit, machine, steps)?;
    let collector = collected(rt, alloc, ring, gate)?;
    Ok(collector.into_parts())
}

/// The tapes that a collector has come to, where no fault stopped it.
fn tapes_of(
    alloc: Global,
    plan: &Plan,
    ended: CollectorParts,
) -> Result<Option<Vec<Tape>>, NoMemory>
    ensures { IfOk result (TellsTapes plan.now ended) }
{
    match stop_of(&ended) {
        None => match outcome_of(alloc, plan, ended) {
            Ok(outcome) => Ok(done_tapes(outcome)),
            Err(_) => Err(NoMemory),
        },
        Some(stop) => no_tapes(stop),
    }
}

/// Why a collector's run stops short of its rounds.
fn stop_of(ended: &CollectorParts) -> Option<Stop>
    ensures { result ≡ ended.now.stop }
{
    match &ended.stop {
        Some(stop) => Some(stop.copy()),
        None => None,
    }
}

/// What stopped a collector tells of no tapes, where it is a fault.
fn no_tapes(stop: Stop) -> Result<Option<Vec<Tape>>, NoMemory>
    ensures { IfOk result (λ found. (found ≡ None) × IsFault (Some stop)) }
{
    match stop {
        Stop::Fault { .. } => Ok(None),
        Stop::NoMemory => Err(NoMemory),
    }
}
