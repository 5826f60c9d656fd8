// The units of a batch of rounds, group by group.

ghost use Rattle.std.specs.Prelude.{◌≡◌, ◌++◌, ◌*◌, ◌≤◌, ◌^◌, IfErr, IfOk, OnOk};
ghost use Rattle.std.specs.List.{flat_map};
ghost use Rattle.strc_elab_dataflow.specs.Fused.{repeated};
ghost use Rattle.strc_elab_dataflow.specs.FusedUnits as round_firings;
ghost use Rattle.strc_fuse.specs.Units.{round_unit, round_units};
ghost use Rattle.strc_batch_laws.specs.Units as laws;
ghost use Rattle.strc_batch.specs.Batches as spec;
ghost use Rattle.strc_batch.specs.Listed.{units_in};

use crate::error::BatchError;
use std::alloc::{AllocError, Global};
use strc_sched_orders::unit::Unit;

/// The units of each group so many times over, as one unit a group.
pub(crate) fn batch_units(
    alloc: Global,
    groups: &[Vec<Unit>],
    rounds: u32,
) -> Result<Vec<Unit>, BatchError>
    ensures units { IfOk result (λ units. round_units units.items
        ≡ flat_map (laws.batch_units rounds) (units_in groups.now)) }
    ensures none { IfErr result (spec.IsManyTurns
        (spec.HaveManyTurns (units_in groups.now) rounds)) }
{
    let mut units = Vec::new(alloc);
    for group in groups {
        match add_group(alloc, &mut units, group, rounds) {
            Ok(()) => {}
            Err(error) => return Err(error),
        }
    }
    Ok(units)
}

/// Adds the units of a group so many times over.
fn add_group(
    alloc: Global,
    units: &mut Vec<Unit>,
    group: &[Unit],
    rounds: u32,
) -> Result<(), BatchError>
    ensures units { OnOk result (round_units units.new.items ≡ round_units units.old.items
        ++ laws.batch_units rounds (round_units group.now)) }
    ensures none { IfErr result (spec.IsManyTurns
        (spec.HasManyTurns (round_units group.now) rounds)) }
{
    if group.is_empty() {
        return Ok(());
    }
    let unit = if group.len() == 1 {
        more_turns(alloc, &group[0], rounds)?
    } else {
        listed(alloc, group, rounds)?
    };
    units.push(unit)?;
    Ok(())
}

/// A unit with so many times its turns.
fn more_turns(alloc: Global, unit: &Unit, rounds: u32) -> Result<Unit, BatchError>
    ensures unit { IfOk result (λ more. round_unit more
        ≡ record { turns = rounds * unit.now.turns; nodes = unit.now.nodes.items }) }
    ensures none { IfErr result (spec.IsManyTurns (2 ^ 32 ≤ rounds * unit.now.turns)) }
{
    let Some(turns) = rounds.checked_mul(unit.turns) else {
        return Err(BatchError::Long);
    };
    let nodes = unit.nodes.to_vec(alloc)?;
    Ok(Unit { turns, nodes })
}

/// So many turns of the firings of several units.
fn listed(alloc: Global, units: &[Unit], rounds: u32) -> Result<Unit, AllocError>
    ensures { IfOk result (λ unit. round_unit unit
        ≡ record { turns = rounds; nodes = round_firings.firings_of (round_units units.now) }) }
{
    let mut nodes = Vec::new(alloc);
    for unit in units {
        add_firings(&mut nodes, unit)?;
    }
    Ok(Unit {
        turns: rounds,
        nodes,
    })
}

/// Adds the firings of a unit.
fn add_firings(nodes: &mut Vec<u32>, unit: &Unit) -> Result<(), AllocError>
    ensures { OnOk result (nodes.new.items ≡ nodes.old.items
        ++ repeated unit.now.turns unit.now.nodes.items) }
{
    for _turn in 0..unit.turns {
        nodes.extend_from_slice(&unit.nodes)?;
    }
    Ok(())
}
