// The groups of a plan's nodes.

ghost use Rattle.std.specs.Prelude.{◌≡◌, ℕ, suc, ◌<◌, ◌≤◌, IfOk, length, slice_index};
ghost use Rattle.strc_elab_dataflow.specs.Ranges.{stage_within};
ghost use Rattle.strc_stage_plan.specs.Plans.{transformed_of};
ghost use Rattle.strc_stage_steps.specs.Plans.{IsCut};
ghost use Rattle.strc_stage_cut.specs.Bounds.{bound_in, last_of};
ghost use Rattle.strc_batch.specs.Sizes as spec;

use std::alloc::{AllocError, Global};
use strc_stage_plan::bounds::stage_bounds;
use strc_stage_plan::plan::Plan;

/// The node with which each of the finest groups begins, and the number of nodes.
pub(crate) fn group_bounds(alloc: Global, plan: &Plan) -> Result<Vec<usize>, AllocError>
    ensures { IfOk result (λ bounds. bounds.items ≡ spec.group_bounds plan.now) }
{
    plan.known();
    let graph = plan.transformed_graph();
    let round = plan.transformed_schedule().round();
    stage_bounds(alloc, graph, round, u32::MAX)
}

/// The group of each node, by the bounds of groups.
pub(crate) fn groups_of_nodes(
    alloc: Global,
    plan: &Plan,
    bounds: &[usize],
) -> Result<Vec<usize>, AllocError>
    requires some { 2 ≤ length bounds.now }
    requires cut { IsCut plan.now (bound_in bounds.now) (suc (last_of bounds.now)) }
    ensures nodes { IfOk result (λ groups. length groups.items
        ≡ length (transformed_of plan.now).nodes) }
    ensures groups { IfOk result (λ groups. (node : ℕ)
        → node < length (transformed_of plan.now).nodes → slice_index groups.items node
        ≡ stage_within (bound_in bounds.now) (last_of bounds.now) node) }
{
    let _plan = plan;
    let mut groups = Vec::new(alloc);
    for group in 0..bounds.len() - 1 {
        groups.resize(bounds[group + 1], group)?;
    }
    Ok(groups)
}
