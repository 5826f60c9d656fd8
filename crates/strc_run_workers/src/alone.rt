// The rounds of a plan on one thread.

ghost use Rattle.std.specs.Prelude.{◌≡◌, ◌≤◌, length, map, IfOk, IfErr};
ghost use Rattle.strc_elab_graph.specs.NodeView.{node_view};
ghost use Rattle.strc_sched_orders.specs.Greedy.{firings_of};
ghost use Rattle.strc_sched_laws.specs.Machine.{rounds_run};
ghost use Rattle.strc_sched_rings.specs.Circuits.{circuit_view, IsReady};
ghost use Rattle.strc_sched_outcome.specs.declared.run_refusal.RunRefusal.TheVariants as refused;
ghost use Rattle.strc_sched_machine.specs.Running.{IsMachine, machine_view};
ghost use Rattle.strc_stage_steps.specs.Plans.{need_of};
ghost use Rattle.strc_stage.specs.Answers.{AnswersPlan};
ghost use Rattle.strc_stage.specs.Alone.{HasRun};

use std::alloc::Global;
use strc_sched::plain::run_units;
use strc_sched_machine::machine::Machine;
use strc_sched_outcome::outcome::Outcome;
use strc_sched_outcome::run_refusal::RunRefusal;
use strc_sched_rings::circuit::Circuit;
use strc_stage::collector_outcome::faulted;
use strc_stage::old_names::renamed;
use strc_stage_cut::{Startup, start_up};
use strc_stage_plan::plan::Plan;

/// Start-up, and then so many rounds of the plan's graph after fission, on this thread: each
/// channel is a ring as large as the plan says, and nodes fire over them in its order (Lee and
/// Messerschmitt 1987: a periodic admissible sequential schedule).
///
/// For whatever stream the plan's graph is the flat graph of, the outcome is the answer of the
/// stream equations at the plan's counts. `NoMemory` comes where memory runs out.
pub fn run_alone(
    alloc: Global,
    plan: &Plan,
    input: &[i32],
    rounds: u32,
) -> Result<Outcome, RunRefusal>
    requires enough { need_of plan.now rounds ≤ length input.now }
    ensures answer { IfOk result (AnswersPlan plan.now input.now rounds) }
    ensures memory { IfErr result (λ refusal. refusal ≡ refused.NoMemory) }
{
    match start_up(alloc, plan, input) {
        Ok(Startup::Ended { circuit, machine }) => {
            run_rounds(alloc, plan, &circuit, machine, rounds)
        }
        Ok(
            Startup::Faulted {
                node,
                firing,
                cause,
            },
        ) => faulted(alloc, plan.graph().nodes(), node, firing, cause),
        Err(_) => Err(RunRefusal::NoMemory),
    }
}

/// So many rounds of the machine that start-up left.
fn run_rounds(
    alloc: Global,
    plan: &Plan,
    circuit: &Circuit,
    machine: Machine,
    rounds: u32,
) -> Result<Outcome, RunRefusal>
    requires machine { IsMachine (circuit_view circuit.now) machine }
    requires ready { IsReady circuit.now }
    requires nodes { map node_view plan.now.split.graph.nodes ≡ (circuit_view circuit.now).codes }
    ensures ending { IfOk result (HasRun plan.now (circuit_view circuit.now)
        (machine_view machine) rounds) }
    ensures memory { IfErr result (λ refusal. refusal ≡ refused.NoMemory) }
{
    let nodes = plan.transformed_graph().nodes();
    let round = plan.transformed_schedule().round();
    match run_units(alloc, machine, nodes, circuit, round, rounds) {
        Ok(outcome) => Ok(renamed(plan, outcome)),
        Err(refusal) => Err(refusal),
    }
}
