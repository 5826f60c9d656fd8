// The bounds of stages of even work.

ghost use Rattle.std.specs.Prelude.{◌≡◌, ◌<◌, IfOk, length};
ghost use Rattle.strc_stage_steps.specs.Plans.{plan_stages};
ghost use Rattle.strc_stage_weights.specs.StageBounds as spec;

use crate::group_work::group_weights;
use crate::node_work::node_work;
use crate::stage_groups::bounds_by_weight;
use std::alloc::Global;
use strc_lex_names::memory::NoMemory;
use strc_stage_plan::bounds::stage_bounds;
use strc_stage_plan::plan::Plan;

/// The bounds of a plan's stages for so many workers: the node with which each stage begins, and
/// the number of nodes (Gordon, Thies and Amarasinghe 2006: load balancing of software pipelines).
///
/// There are as many stages as workers, or as groups where these are fewer, as of `stage_bounds`.
/// A stage begins with the first group whose middle, by the work of nodes in a round, is past an
/// even share for each stage before it; but each stage has some group.
pub fn weighed_bounds(alloc: Global, plan: &Plan, workers: u32) -> Result<Vec<usize>, NoMemory>
    requires workers { 0 < workers }
    requires nodes { 0 < length plan.now.graph.nodes }
    ensures bounds { IfOk result (λ bounds. bounds.items ≡ spec.weighed_bounds plan.now workers) }
    ensures stages { IfOk result (λ bounds.
        spec.AreStageBounds plan.now (plan_stages plan.now workers) bounds.items) }
{
    plan.known();
    let works = node_work(alloc, plan)?;
    let graph = plan.transformed_graph();
    let round = plan.transformed_schedule().round();
    let starts = stage_bounds(alloc, graph, round, u32::MAX)?;
    let weights = group_weights(alloc, &works, &starts)?;
    let stages = weights.len().min(workers as usize);
    Ok(bounds_by_weight(alloc, &starts, &weights, stages)?)
}
