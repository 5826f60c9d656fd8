// Start-up of a plan: over the graph before fission, and its state dealt out to the one after it.

ghost use Rattle.std.specs.Prelude.{◌≡◌, IfOk};
ghost use Rattle.strc_elab_graph.specs.NodeView.{graph_view};
ghost use Rattle.strc_sched_laws.specs.Circuits.{IsCircuit};
ghost use Rattle.strc_sched_rings.specs.Circuits.{circuit_view};
ghost use Rattle.strc_sched_machine.specs.Running.{IsMachine, machine_view};
ghost use Rattle.strc_stage_cut.specs.Startups.{IsDealtOf, IsFaultOf, IsStartup, IsStartupIn};

use std::alloc::Global;
use strc_lex_names::memory::NoMemory;
use strc_sched_machine::batches::order_of;
use strc_sched_machine::machine::Machine;
use strc_sched_outcome::stop::Stop;
use strc_sched_rings::circuit::Circuit;
use strc_stage_plan::plan::Plan;
use strc_stage_steps::dealt_state::deal_out;
use strc_work_meaning::fault::LocatedCause;

/// What start-up of a plan comes to: the machine of the graph after fission, ready for the first
/// round, with its circuit; or a fault, which names a node of the graph before fission.
#[derive(Drop)]
pub enum Startup {
    Ended {
        circuit: Circuit,
        machine: Machine,
    },
    Faulted {
        node: u32,
        firing: u64,
        cause: LocatedCause,
    },
}

/// Start-up of a plan over an input, on this thread. `NoMemory` comes where memory runs out.
pub fn start_up(alloc: Global, plan: &Plan, input: &[i32]) -> Result<Startup, NoMemory>
    ensures { IfOk result (IsStartup plan.now input.now) }
{
    start_up_in(alloc, plan, input, plan.transformed_sizes())
}

/// Start-up of a plan over an input, on this thread, where the rings of the graph after fission get
/// these sizes. `NoMemory` comes where memory runs out.
pub fn start_up_in(
    alloc: Global,
    plan: &Plan,
    input: &[i32],
    sizes: &[u32],
) -> Result<Startup, NoMemory>
    ensures { IfOk result (IsStartupIn plan.now sizes.now input.now) }
{
    plan.known();
    let graph = plan.graph();
    let schedule = plan.schedule();
    let circuit = Circuit::new(alloc, graph, input)?;
    let order = order_of(alloc, &circuit, schedule.startup())?;
    let mut machine = Machine::new(alloc, graph, &circuit, schedule.sizes())?;
    match machine.fire_order(&circuit, &order) {
        Ok(()) => dealt(alloc, plan, &circuit, machine, input, sizes),
        Err(stop) => faulted(stop),
    }
}

/// The machine after start-up, dealt out to the graph after fission.
fn dealt(
    alloc: Global,
    plan: &Plan,
    old: &Circuit,
    machine: Machine,
    input: &[i32],
    sizes: &[u32],
) -> Result<Startup, NoMemory>
    requires old { IsCircuit (graph_view plan.now.graph) (circuit_view old.now) }
    requires machine { IsMachine (circuit_view old.now) machine }
    ensures { IfOk result (IsDealtOf plan.now sizes.now (circuit_view old.now)
        (machine_view machine) input.now) }
{
    plan.known();
    let graph = plan.transformed_graph();
    let circuit = Circuit::new(alloc, graph, input)?;
    let machine = deal_out(alloc, machine, old, graph, &circuit, plan.origins(), sizes)?;
    Ok(Startup::Ended { circuit, machine })
}

/// What start-up comes to where a firing of it stops.
fn faulted(stop: Stop) -> Result<Startup, NoMemory>
    ensures { IfOk result (IsFaultOf stop) }
{
    match stop {
        Stop::Fault {
            node,
            firing,
            cause,
        } => Ok(Startup::Faulted {
            node,
            firing,
            cause,
        }),
        Stop::NoMemory => Err(NoMemory),
    }
}
