// The ring of stages that start-up leaves.

ghost use Rattle.std.specs.Prelude.{◌≡◌, IfOk, length};
ghost use Rattle.strc_elab_graph.specs.NodeView.{graph_view};
ghost use Rattle.strc_sched_laws.specs.Circuits.{IsCircuit};
ghost use Rattle.strc_sched_rings.specs.Circuits.{circuit_view, IsReady};
ghost use Rattle.strc_sched_machine.specs.Running.{IsMachine, machine_view};
ghost use Rattle.strc_stage_cut.specs.Cuts.{IsCutAt, IsCutting};
ghost use Rattle.strc_stage_cut.specs.Fired.{CanBeShared};
ghost use Rattle.strc_stage_cut.specs.Launches.{IsRingOf};

use crate::free_parcels::free_parcels;
use crate::plan_cut::Cut;
use crate::stage_parts::stages_of;
use crate::tapes::tape_words;
use std::alloc::Global;
use strc_lex_names::memory::NoMemory;
use strc_sched_machine::laws::whole_machines_hold;
use strc_sched_machine::machine::Machine;
use strc_sched_orders::unit::Unit;
use strc_sched_rings::circuit::Circuit;
use strc_stage_core::Start;
use strc_stage_plan::plan::Plan;
use strc_stage_steps::{Collector, Stage};
use strc_work_meaning::fault::LocatedCause;

/// What start-up of a plan comes to: what the ring of its stages begins with, or a fault.
#[derive(Drop)]
pub enum Launch {
    Going(Start<Stage, Collector>),
    Faulted {
        node: u32,
        firing: u64,
        cause: LocatedCause,
    },
}

/// The ring of the stages of a plan that have these bounds, over a machine that has come to the end
/// of some rounds, where stages fire these units in each of so many steps: those of a batch of
/// rounds.
///
/// Err only where memory runs out.
pub fn ring_by(
    alloc: Global,
    plan: &Plan,
    fired: &[Unit],
    bounds: Vec<usize>,
    circuit: &Circuit,
    machine: Machine,
    steps: u32,
) -> Result<Start<Stage, Collector>, NoMemory>
    requires cut { IsCutAt plan.now bounds.items }
    requires shared { CanBeShared plan.now fired.now bounds.items }
    requires circuit { IsCircuit (graph_view plan.now.split.graph) (circuit_view circuit.now) }
    requires ready { IsReady circuit.now }
    requires machine { IsMachine (circuit_view circuit.now) machine }
    requires rings { length (machine_view machine).rings
        ≡ length (graph_view plan.now.split.graph).channels }
    ensures { IfOk result (IsRingOf plan.now fired.now bounds.items (circuit_view circuit.now)
        (machine_view machine) steps) }
{
    let cut = Cut::new(alloc, plan, fired, bounds)?;
    ring_of(alloc, plan, fired, &cut, circuit, machine, steps)
}

/// The ring of the stages of a cut, over a machine that has come to the end of start-up or of some
/// rounds, where stages fire these units in each of so many steps.
pub(crate) fn ring_of(
    alloc: Global,
    plan: &Plan,
    fired: &[Unit],
    cut: &Cut,
    circuit: &Circuit,
    machine: Machine,
    steps: u32,
) -> Result<Start<Stage, Collector>, NoMemory>
    requires cut { IsCutting plan.now fired.now cut.now }
    requires circuit { IsCircuit (graph_view plan.now.split.graph) (circuit_view circuit.now) }
    requires ready { IsReady circuit.now }
    requires machine { IsMachine (circuit_view circuit.now) machine }
    requires rings { length (machine_view machine).rings
        ≡ length (graph_view plan.now.split.graph).channels }
    ensures { IfOk result (IsRingOf plan.now fired.now cut.now.bounds.items
        (circuit_view circuit.now) (machine_view machine) steps) }
{
    whole_machines_hold();
    let mut left = machine;
    let stages = stages_of(alloc, plan, fired, cut, circuit, &mut left, steps)?;
    let free = free_parcels(alloc, &stages)?;
    let words = tape_words(alloc, plan.transformed_graph().nodes(), left.into_words())?;
    Ok(Start {
        stages,
        free,
        collector: Collector::new(words, steps),
    })
}
