// The rounds of a plan on one thread, by batches.

ghost use Rattle.std.specs.Prelude.{◌≡◌, ◌<◌, ◌≤◌, length, map, IfNone, IfOk, IfSome};
ghost use Rattle.strc_elab_graph.specs.NodeView.{node_view};
ghost use Rattle.strc_sched_outcome.specs.declared.outcome.Outcome.TheVariants.{Done};
ghost use Rattle.strc_sched_rings.specs.Circuits.{circuit_view, IsReady};
ghost use Rattle.strc_sched_machine.specs.Running.{IsMachine, machine_view};
ghost use Rattle.strc_stage_steps.specs.Plans.{need_of};
ghost use Rattle.strc_stage.specs.Answers.{AnswersPlan};
ghost use Rattle.strc_batch.specs.Batches.{IsBatchOf};
ghost use Rattle.strc_run_batches.specs.Batched.{ComesByBatches, Faults};

use crate::done_tapes::done_tapes;
use crate::repeated_order::after_rounds;
use std::alloc::Global;
use strc_batch::Batch;
use strc_lex_names::memory::NoMemory;
use strc_sched::plain::run_units;
use strc_sched_machine::machine::Machine;
use strc_sched_outcome::outcome::Tape;
use strc_sched_rings::circuit::Circuit;
use strc_stage::old_names::renamed;
use strc_stage_cut::{Startup, start_up_in};
use strc_stage_plan::plan::Plan;

/// Start-up, and then so many rounds of the plan's graph after fission, on this thread: first those
/// that are no whole batch, one by one, and then the batches, each as a round of its own
/// (Sermulins, Thies, Rabbah and Amarasinghe 2005: execution scaling). Each channel is a ring as
/// large as the batch says.
///
/// For whatever stream the plan's graph is the flat graph of, the tapes are those of the answer of
/// the stream equations at the plan's counts. There are none just where a firing faults; which one
/// is told by the rounds one by one. `NoMemory` comes where memory runs out.
pub fn run_by_batches(
    alloc: Global,
    plan: &Plan,
    input: &[i32],
    rounds: u32,
    batch: &Batch,
) -> Result<Option<Vec<Tape>>, NoMemory>
    requires enough { need_of plan.now rounds ≤ length input.now }
    requires nodes { 0 < length plan.now.graph.nodes }
    requires batch { IsBatchOf plan.now batch.now }
    ensures answer { IfOk result (λ found. IfSome found (λ tapes.
        AnswersPlan plan.now input.now rounds (Done tapes))) }
    ensures faults { IfOk result (λ found. IfNone found
        (Faults plan.now batch.now.sizes input.now rounds)) }
{
    match start_up_in(alloc, plan, input, batch.sizes()) {
        Ok(Startup::Ended { circuit, machine }) => {
            run_rounds(alloc, plan, &circuit, machine, rounds, batch)
        }
        Ok(Startup::Faulted { .. }) => Ok(None),
        Err(error) => Err(error),
    }
}

/// So many rounds of the machine that start-up left.
fn run_rounds(
    alloc: Global,
    plan: &Plan,
    circuit: &Circuit,
    machine: Machine,
    rounds: u32,
    batch: &Batch,
) -> Result<Option<Vec<Tape>>, NoMemory>
    requires machine { IsMachine (circuit_view circuit.now) machine }
    requires ready { IsReady circuit.now }
    requires nodes { map node_view plan.now.split.graph.nodes ≡ (circuit_view circuit.now).codes }
    requires batch { IsBatchOf plan.now batch.now }
    ensures { IfOk result (ComesByBatches plan.now batch.now (circuit_view circuit.now)
        (machine_view machine) rounds) }
{
    let rest = rounds % batch.rounds();
    let Some(later) = after_rounds(alloc, plan, circuit, machine, rest)? else {
        return Ok(None);
    };
    let nodes = plan.transformed_graph().nodes();
    let batches = rounds / batch.rounds();
    match run_units(alloc, later, nodes, circuit, batch.units(), batches) {
        Ok(outcome) => Ok(done_tapes(renamed(plan, outcome))),
        Err(_) => Err(NoMemory),
    }
}
