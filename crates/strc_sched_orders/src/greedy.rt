// Greedy orders: of the nodes that have firings left and find their windows the lowest fires, as
// often as it can at once.

ghost use Rattle.std.specs.Prelude.{◌≡◌, ℕ, ◌+◌, ◌≤◌, ◌∷◌, [], length, IfOk, IfSome, IfNone};
ghost use Rattle.strc_balance.specs.Balance.{count_at};
ghost use Rattle.strc_sched_orders.specs.Greedy.{IsGreedyOrder};
ghost use Rattle.strc_sched_orders.specs.Network.{size_of};
ghost use Rattle.strc_sched_orders.specs.Order.{HasOrder};
ghost use Rattle.strc_sched_orders.specs.Progress.{count_bound, IsProgress, OrdersAll};

use crate::network::Network;
use crate::progress::Progress;
use crate::unit::Unit;
use std::alloc::{AllocError, Global};

/// The greedy order of so many firings of each node, from these counts; None where no order of them
/// exists.
pub(crate) fn greedy_order(
    alloc: Global,
    network: &Network,
    counts: &[u32],
    firings: &[u32],
) -> Result<Option<Vec<Unit>>, AllocError>
    requires counts { length counts.now ≤ size_of network.now }
    requires firings { length firings.now ≤ size_of network.now }
    requires few { (node : ℕ) → count_at counts.now node + count_at firings.now node
        ≤ count_bound }
    ensures greedy { IfOk result (λ order. IfSome order (λ units. IsGreedyOrder
        network.now.channels (count_at counts.now) (count_at firings.now) units.items)) }
    ensures none { IfOk result (λ order. IfNone order (¬ HasOrder network.now.channels
        (count_at counts.now) (count_at firings.now))) }
{
    let mut progress = Progress::new(alloc, network, counts, firings)?;
    let units = all_units(alloc, network, &mut progress)?;
    if progress.is_done() {
        Ok(Some(units))
    } else {
        Ok(None)
    }
}

/// Units until no node can fire.
fn all_units(
    alloc: Global,
    network: &Network,
    progress: &mut Progress,
) -> Result<Vec<Unit>, AllocError>
    requires { IsProgress network.now progress.old }
    ensures { IfOk result (λ units. OrdersAll network.now progress.old units.items progress.new) }
{
    let mut units = Vec::new(alloc);
    while let Some((turns, node)) = progress.take_unit(network)? {
        units.push(unit_of(alloc, turns, node)?)?;
    }
    Ok(units)
}

/// So many firings of a node.
fn unit_of(alloc: Global, turns: u32, node: u32) -> Result<Unit, AllocError>
    ensures turns { IfOk result (λ unit. unit.turns ≡ turns) }
    ensures nodes { IfOk result (λ unit. unit.nodes.items ≡ node ∷ []) }
{
    let mut nodes = Vec::with_capacity(alloc, 1)?;
    nodes.push(node)?;
    Ok(Unit { turns, nodes })
}
