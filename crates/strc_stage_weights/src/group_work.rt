// The work of groups of nodes.

ghost use Rattle.std.specs.Prelude.{◌≡◌, ℕ, suc, ◌-◌, ◌*◌, ◌<◌, ◌≤◌, ◌^◌, All, IfOk, length};
ghost use Rattle.std.specs.Prelude.{slice_index, sum};
ghost use Rattle.strc_batch_cut.specs.Work as spec;

use crate::unit_work::ROUND_WORK_LIMIT;
use std::alloc::{AllocError, Global};
use strc_elab_graph::graph::NODE_LIMIT;

/// The work of each group, by the nodes' work and the bounds of the groups.
pub(crate) fn group_weights(
    alloc: Global,
    works: &[u64],
    bounds: &[usize],
) -> Result<Vec<u64>, AllocError>
    requires some { 0 < length bounds.now }
    requires rising { (group : ℕ) → suc group < length bounds.now
        → slice_index bounds.now group ≤ slice_index bounds.now (suc group) }
    requires within { (group : ℕ) → group < length bounds.now
        → slice_index bounds.now group ≤ length works.now }
    requires few { length works.now ≤ NODE_LIMIT }
    requires light { (node : ℕ) → slice_index works.now node ≤ ROUND_WORK_LIMIT }
    ensures weights { IfOk result (λ weights. weights.items
        ≡ spec.group_weights (slice_index works.now) (slice_index bounds.now)
        (length bounds.now - 1)) }
    ensures total { IfOk result (λ weights. sum weights.items < 2 ^ 62) }
{
    let mut weights = Vec::new(alloc);
    for group in 0..bounds.len() - 1 {
        weights.push(work_between(works, bounds[group], bounds[group + 1]))?;
    }
    Ok(weights)
}

/// The work of the nodes from one number on and before another.
fn work_between(works: &[u64], first: usize, next: usize) -> u64
    requires rising { first ≤ next }
    requires within { next ≤ length works.now }
    requires few { length works.now ≤ NODE_LIMIT }
    requires light { (node : ℕ) → slice_index works.now node ≤ ROUND_WORK_LIMIT }
    ensures work { result ≡ spec.work_between (slice_index works.now) first next }
    ensures light { result ≤ (next - first) * ROUND_WORK_LIMIT }
{
    let mut total = 0;
    for node in first..next {
        total += works[node];
    }
    total
}
