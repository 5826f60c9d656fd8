// The units of a plan's round, group by group.

ghost use Rattle.std.specs.Prelude.{◌≡◌, ◌++◌, ◌∷◌, ◌<◌, [], IfOk, OnOk, get_or, length, map};
ghost use Rattle.std.specs.Prelude.{replicate, slice_index, slice_set, suc};
ghost use Rattle.std.specs.List.{range_with_len};
ghost use Rattle.strc_fuse.specs.Units.{round_unit};
ghost use Rattle.strc_stage_cut.specs.Bounds.{bound_in, last_of};
ghost use Rattle.strc_stage_cut.specs.Cuts.{IsCutAt};
ghost use Rattle.strc_batch_plans.specs.Plans as plans;
ghost use Rattle.strc_batch.specs.Listed.{units_in};
ghost use Rattle.strc_batch.specs.Batches.{plan_units};
ghost use Rattle.strc_batch.specs.Sizes.{AreGroupsOf};

use crate::groups::{group_bounds, groups_of_nodes};
use std::alloc::{AllocError, Global};
use strc_sched_orders::unit::Unit;
use strc_sched_rings::units::copy_unit;
use strc_stage_plan::plan::Plan;

/// The units of each of a plan's groups.
pub(crate) fn group_units(alloc: Global, plan: &Plan) -> Result<Vec<Vec<Unit>>, AllocError>
    requires nodes { 0 < length plan.now.graph.nodes }
    ensures { IfOk result (λ groups. units_in groups.items ≡ plan_units plan.now) }
{
    plan.known();
    let bounds = group_bounds(alloc, plan)?;
    let groups = groups_of_nodes(alloc, plan, &bounds)?;
    parted(alloc, plan, &bounds, &groups)
}

/// The same, where nodes are in these groups, which begin so.
fn parted(
    alloc: Global,
    plan: &Plan,
    bounds: &[usize],
    groups: &[usize],
) -> Result<Vec<Vec<Unit>>, AllocError>
    requires bounds { IsCutAt plan.now bounds.now }
    requires groups { AreGroupsOf plan.now bounds.now groups.now }
    requires some { 0 < length groups.now }
    ensures { IfOk result (λ parts. units_in parts.items
        ≡ map (plans.group_units plan.now (bound_in bounds.now))
        (range_with_len 0 (suc (last_of bounds.now)))) }
{
    let round = plan.transformed_schedule().round();
    let mut parts = no_units(alloc, bounds.len() - 1)?;
    for unit in round {
        let copy = copy_unit(alloc, unit)?;
        add(&mut parts, groups[node_of(unit)], copy)?;
    }
    Ok(parts)
}

/// So many groups without units.
fn no_units(alloc: Global, count: usize) -> Result<Vec<Vec<Unit>>, AllocError>
    ensures { IfOk result (λ groups. units_in groups.items ≡ replicate count []) }
{
    let mut groups = Vec::with_capacity(alloc, count)?;
    for _group in 0..count {
        groups.push(Vec::new(alloc))?;
    }
    Ok(groups)
}

/// Adds a unit to a group.
fn add(groups: &mut Vec<Vec<Unit>>, group: usize, unit: Unit) -> Result<(), AllocError>
    requires { group < length groups.old.items }
    ensures { OnOk result (units_in groups.new.items ≡ slice_set (units_in groups.old.items) group
        (get_or (units_in groups.old.items) group [] ++ round_unit unit ∷ [])) }
{
    groups[group].push(unit)?;
    Ok(())
}

/// The first node of a unit.
fn node_of(unit: &Unit) -> usize
    ensures { result ≡ slice_index unit.now.nodes.items 0 }
{
    if unit.nodes.len() > 0 {
        unit.nodes[0] as usize
    } else {
        0
    }
}
