// The channel whose rates make a node fire too often in a round.

ghost use Rattle.std.specs.Prelude.{◌<◌, IfOk, IfSome, length};
ghost use Rattle.strc_elab_graph.specs.NodeView.{graph_view};

use crate::shares::{Share, first_shares, multiple, next_given, quotient};
use std::alloc::Global;
use strc_balance::COUNT_LIMIT;
use strc_elab_graph::graph::Graph;
use strc_lex_names::memory::NoMemory;

/// The channel at which the counts of a round become too large, going from node to node.
pub fn large_channel(alloc: Global, graph: &Graph) -> Result<Option<usize>, NoMemory>
    ensures { IfOk result (λ found. IfSome found (λ channel. channel
        < length (graph_view graph.now).channels)) }
{
    let mut shares = first_shares(alloc, graph)?;
    // How often node 0 fires so that all nodes up to here fire whole times, and the greatest share.
    let mut rounds: u128 = 1;
    for _node in 0..graph.nodes().len() {
        let Some(given) = next_given(graph, &shares, None) else {
            return Ok(None);
        };
        if let Some(share) = shares.get_mut(given.node) {
            *share = Some(given.share);
        }
        rounds = multiple(rounds, given.share.bottom);
        if passes(&shares, rounds) {
            return Ok(Some(given.channel));
        }
    }
    Ok(None)
}

/// Whether a node fires too often in so many firings of node 0.
fn passes(shares: &[Option<Share>], rounds: u128) -> bool {
    shares.iter().any(|share| match share {
        Some(share) => count(*share, rounds) > COUNT_LIMIT,
        None => false,
    })
}

fn count(share: Share, rounds: u128) -> u128 {
    share.top.saturating_mul(quotient(rounds, share.bottom))
}
