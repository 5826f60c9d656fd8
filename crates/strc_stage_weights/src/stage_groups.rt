// The groups that stages begin with, by weight.

ghost use Rattle.std.specs.Prelude.{◌≡◌, ℕ, suc, ◌+◌, ◌*◌, ◌<◌, ◌≤◌, ◌^◌, IfOk, length, sum};
ghost use Rattle.strc_batch_cut.specs.Weighed as weighed;
ghost use Rattle.strc_stage_weights.specs.StageBounds as spec;

use std::alloc::{AllocError, Global};

/// The node with which each of so many stages begins, and the number of nodes, by the bounds of
/// groups and their weights.
pub(crate) fn bounds_by_weight(
    alloc: Global,
    starts: &[usize],
    weights: &[u64],
    stages: usize,
) -> Result<Vec<usize>, AllocError>
    requires starts { length starts.now ≡ suc (length weights.now) }
    requires stages { stages ≤ length weights.now }
    requires few { sum weights.now < 2 ^ 62 }
    ensures { IfOk result (λ bounds. bounds.items
        ≡ spec.bounds_by_weight starts.now weights.now stages) }
{
    let total = total_weight(weights);
    let mut bounds = Vec::new(alloc);
    let mut least: usize = 0;
    for stage in 0..stages {
        bounds.push(starts[least.min(weights.len() - (stages - stage))])?;
        least = next_least(weights, total, stages, stage, least);
    }
    bounds.push(starts[weights.len()])?;
    Ok(bounds)
}

/// All weights together.
fn total_weight(weights: &[u64]) -> u64
    requires { sum weights.now < 2 ^ 62 }
    ensures { result ≡ sum weights.now }
{
    let mut total = 0;
    for weight in weights {
        total += *weight;
    }
    total
}

/// The least group that the next stage can begin with, where a stage can begin with this one.
fn next_least(weights: &[u64], total: u64, stages: usize, stage: usize, least: usize) -> usize
    requires stage { stage < stages }
    requires total { total ≡ sum weights.now }
    requires few { total < 2 ^ 62 }
    requires least { least ≡ weighed.least_group weights.now stages stage }
    requires within { least ≤ length weights.now + stage }
    requires stages { stages ≤ length weights.now }
    ensures least { result ≡ weighed.least_group weights.now stages (suc stage) }
    ensures within { result ≤ length weights.now + suc stage }
{
    let shares = (stage + 1) as u128 * (2 * total) as u128;
    groups_before(weights, shares, stages).max(least + 1)
}

/// How many groups have their middle no later than a share of all the weight.
fn groups_before(weights: &[u64], twice_share: u128, stages: usize) -> usize
    requires few { sum weights.now < 2 ^ 62 }
    ensures groups { result ≡ weighed.groups_before weights.now 0 twice_share stages }
    ensures within { result ≤ length weights.now }
{
    let mut passed = 0;
    for (group, weight) in weights.iter().enumerate() {
        if stages as u128 * (2 * passed + *weight) as u128 > twice_share {
            return group;
        }
        passed += *weight;
    }
    weights.len()
}
