// The numbers of nodes after fission.

ghost use Rattle.std.specs.Prelude.{◌≡◌, ℕ, suc, ◌+◌, ◌<◌, ◌≤◌, Err, IfOk, IfErr, length};
ghost use Rattle.strc_fiss.specs.Numbers.{node_limit, up_to, share_at, last_of, base};
ghost use Rattle.strc_fiss.specs.declared.error.FissError.TheVariants as refused;

use crate::error::FissError;
use std::alloc::Global;
use strc_elab_graph::graph::{Fission, NODE_LIMIT};

/// The number of each node's first part, and after them how many parts there are. `NodeLimit` comes
/// where there are more than 4,096.
pub(crate) fn bases_of(alloc: Global, shares: &[Fission]) -> Result<Vec<u32>, FissError>
    ensures bases { IfOk result (λ bases. bases.items
        ≡ up_to (base (share_at shares.now)) (suc (length shares.now))) }
    ensures within { IfOk result (λ bases.
        base (share_at shares.now) (length shares.now) ≤ node_limit) }
    ensures limit { result ≡ Err refused.NodeLimit
        → node_limit < base (share_at shares.now) (length shares.now) }
    ensures error { (channel : ℕ) → ¬ (result ≡ Err (refused.BufferLimit channel)) }
{
    let mut bases = Vec::with_capacity(alloc, shares.len())?;
    let mut next = 0;
    for share in shares {
        bases.push(next)?;
        next = next_base(next, *share)?;
    }
    bases.push(next)?;
    Ok(bases)
}

/// The number after those of a node's parts, of which the first has this number.
fn next_base(number: u32, share: Fission) -> Result<u32, FissError>
    ensures next { IfOk result (λ next. next ≡ number + suc (last_of share)) }
    ensures within { IfOk result (λ next. next ≤ node_limit) }
    ensures error { IfErr result (λ error. error ≡ refused.NodeLimit) }
    ensures limit { IfErr result (λ error. node_limit < number + suc (last_of share)) }
{
    let next = u64::from(number) + part_count(share);
    if next > u64::from(NODE_LIMIT) {
        return Err(FissError::NodeLimit);
    }
    Ok(next as u32)
}

/// How many parts a node has.
pub(crate) fn part_count(share: Fission) -> u64
    ensures parts { result ≡ suc (last_of share) }
    ensures bound { result ≤ share.ways + 2 }
{
    if share.ways > 1 {
        u64::from(share.ways) + 2
    } else {
        1
    }
}
