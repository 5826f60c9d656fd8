// An order, and a plan's round, fired many times.

ghost use Rattle.std.specs.Prelude.{◌≡◌, IfNone, IfOk, IfSome};
ghost use Rattle.strc_elab_dataflow.specs.Staging.{repeated};
ghost use Rattle.strc_sched_orders.specs.Greedy.{firings_of};
ghost use Rattle.strc_sched_laws.specs.Laws.{round_order};
ghost use Rattle.strc_sched_laws.specs.Machine as spec;
ghost use Rattle.strc_sched_rings.specs.Circuits.{circuit_view, IsReady};
ghost use Rattle.strc_sched_machine.specs.Batches.{IsOrderOf, units_of};
ghost use Rattle.strc_sched_machine.specs.Running.{IsMachine, machine_view};
ghost use Rattle.strc_batch_plans.specs.Plans.{WentThrough};
ghost use Rattle.strc_run_batches.specs.Batched.{NeverGoes};

use std::alloc::Global;
use strc_lex_names::memory::NoMemory;
use strc_sched_machine::batches::{Order, order_of};
use strc_sched_machine::machine::Machine;
use strc_sched_outcome::stop::Stop;
use strc_sched_rings::circuit::Circuit;
use strc_stage_plan::plan::Plan;

/// The machine after so many rounds of a plan, one by one; none where a firing faults.
pub(crate) fn after_rounds(
    alloc: Global,
    plan: &Plan,
    circuit: &Circuit,
    machine: Machine,
    rounds: u32,
) -> Result<Option<Machine>, NoMemory>
    requires ready { IsReady circuit.now }
    requires machine { IsMachine (circuit_view circuit.now) machine }
    ensures machine { IfOk result (λ found. IfSome found (IsMachine (circuit_view circuit.now))) }
    ensures went { IfOk result (λ found. IfSome found (λ later.
        WentThrough plan.now rounds (circuit_view circuit.now) (machine_view machine)
        (machine_view later))) }
    ensures faulted { IfOk result (λ found. IfNone found (NeverGoes (circuit_view circuit.now)
        (repeated rounds (round_order plan.now.split.schedule)) (machine_view machine))) }
{
    let round = order_of(alloc, circuit, plan.transformed_schedule().round())?;
    fired_through(machine, circuit, &round, rounds)
}

/// The machine after so many times an order; none where a firing faults.
fn fired_through(
    machine: Machine,
    circuit: &Circuit,
    order: &Order,
    times: u32,
) -> Result<Option<Machine>, NoMemory>
    requires machine { IsMachine (circuit_view circuit.now) machine }
    requires order { IsOrderOf (circuit_view circuit.now) order.now }
    ensures machine { IfOk result (λ found. IfSome found (IsMachine (circuit_view circuit.now))) }
    ensures went { IfOk result (λ found. IfSome found (λ later.
        spec.order_run (circuit_view circuit.now)
        (repeated times (firings_of (units_of order.now))) (machine_view machine)
        ≡ spec.Went (machine_view later))) }
    ensures faulted { IfOk result (λ found. IfNone found (NeverGoes (circuit_view circuit.now)
        (repeated times (firings_of (units_of order.now))) (machine_view machine))) }
{
    let mut running = machine;
    for _turn in 0..times {
        match running.fire_order(circuit, order) {
            Ok(()) => {}
            Err(Stop::Fault { .. }) => return Ok(None),
            Err(Stop::NoMemory) => return Err(NoMemory),
        }
    }
    Ok(Some(running))
}
