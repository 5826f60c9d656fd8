// The stages of a plan, made of the machine that start-up leaves.

ghost use Rattle.std.specs.Prelude.{◌≡◌, suc, ◌≤◌, IfOk, OnOk, length};
ghost use Rattle.strc_elab_graph.specs.NodeView.{graph_view};
ghost use Rattle.strc_sched_laws.specs.Circuits.{IsCircuit};
ghost use Rattle.strc_sched_rings.specs.Circuits.{circuit_view, IsReady};
ghost use Rattle.strc_sched_machine.specs.Parts.{HoldsFrom, IsRest};
ghost use Rattle.strc_sched_machine.specs.Running.{machine_view};
ghost use Rattle.strc_stage_cut.specs.Bounds.{bound_in, last_of};
ghost use Rattle.strc_stage_cut.specs.Cuts.{IsCutting};
ghost use Rattle.strc_stage_cut.specs.Fired.{running_by};
ghost use Rattle.strc_stage_cut.specs.Made.{AreMade, IsMade};

use crate::links::{Side, blocks, crossings};
use crate::plan_cut::Cut;
use crate::tapes::tapes_within;
use crate::units::units_within;
use std::alloc::Global;
use strc_lex_names::memory::NoMemory;
use strc_sched_machine::batches::Order;
use strc_sched_machine::machine::Machine;
use strc_sched_orders::unit::Unit;
use strc_sched_rings::circuit::Circuit;
use strc_sched_rings::laws::parts_are_part_circuits;
use strc_stage_plan::plan::Plan;
use strc_stage_steps::{Stage, StageParts};

/// The stages of a plan that is cut so, which fire these units in a step: the machine is parted
/// among them.
pub(crate) fn stages_of(
    alloc: Global,
    plan: &Plan,
    fired: &[Unit],
    cut: &Cut,
    circuit: &Circuit,
    machine: &mut Machine,
    rounds: u32,
) -> Result<Vec<Stage>, NoMemory>
    requires cut { IsCutting plan.now fired.now cut.now }
    requires circuit { IsCircuit (graph_view plan.now.split.graph) (circuit_view circuit.now) }
    requires ready { IsReady circuit.now }
    requires holds { HoldsFrom (graph_view plan.now.split.graph) 0 machine.old }
    ensures each { IfOk result (λ stages. length stages.items
        ≡ suc (last_of cut.now.bounds.items)) }
    ensures made { IfOk result (λ stages. AreMade (running_by plan.now fired.now)
        cut.now.bounds.items
        (circuit_view circuit.now) (machine_view machine.old) rounds stages.items) }
    ensures words { OnOk result ((machine_view machine.new).words
        ≡ (machine_view machine.old).words) }
{
    let mut stages = Vec::new(alloc);
    for stage in 0..cut.bounds.len() - 1 {
        stages.push(stage_of(alloc, plan, fired, cut, circuit, machine, rounds, stage)?)?;
    }
    Ok(stages)
}

/// A stage: it takes its part of the machine.
fn stage_of(
    alloc: Global,
    plan: &Plan,
    fired: &[Unit],
    cut: &Cut,
    circuit: &Circuit,
    machine: &mut Machine,
    rounds: u32,
    stage: usize,
) -> Result<Stage, NoMemory>
    requires cut { IsCutting plan.now fired.now cut.now }
    requires circuit { IsCircuit (graph_view plan.now.split.graph) (circuit_view circuit.now) }
    requires ready { IsReady circuit.now }
    requires stage { stage ≤ last_of cut.now.bounds.items }
    requires holds { HoldsFrom (graph_view plan.now.split.graph)
        (bound_in cut.now.bounds.items stage) machine.old }
    ensures made { IfOk result (IsMade (running_by plan.now fired.now) cut.now.bounds.items
        (circuit_view circuit.now) (machine_view machine.old) rounds stage) }
    ensures rest { OnOk result (IsRest (graph_view plan.now.split.graph)
        (bound_in cut.now.bounds.items (suc stage)) (machine_view machine.old)
        (machine_view machine.new)) }
    ensures holds { OnOk result (HoldsFrom (graph_view plan.now.split.graph)
        (bound_in cut.now.bounds.items (suc stage)) machine.new) }
{
    parts_are_part_circuits();
    let first = cut.bounds[stage];
    let next = cut.bounds[stage + 1];
    let own = circuit.part_of(alloc, first, next)?;
    let units = units_within(alloc, fired, first, next)?;
    let order = Order::new(alloc, &own, units)?;
    let part = machine.take_part(
        alloc,
        plan.transformed_graph(),
        &own,
        first,
        next,
        &cut.rooms,
    )?;
    Ok(Stage::new(StageParts {
        circuit: own,
        order,
        entering: crossings(alloc, &cut.links, Side::Entering, stage)?,
        leaving: crossings(alloc, &cut.links, Side::Leaving, stage)?,
        tapes: tapes_within(alloc, &cut.tapes, first, next)?,
        machine: part,
        blocks: blocks(alloc, &cut.links, stage)?,
        tape_count: cut.tapes.len(),
        first: stage == 0,
        rounds,
        taken: 0,
        stop: None,
        broken: false,
        finished: rounds == 0,
    }))
}
