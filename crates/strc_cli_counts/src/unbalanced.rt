// How many items come to a channel's two ends.

use crate::shares::{Share, divisor, first_shares, multiple, next_given, quotient};
use std::alloc::Global;
use strc_cli_source::channel_rates::rates_of;
use strc_elab_graph::graph::Graph;
use strc_lex_names::memory::NoMemory;

/// How many items are pushed on a channel and how many are popped, in lowest terms, where its
/// nodes fire as often as the other channels want; none where these don't tell it of both.
#[derive(Clone, Copy)]
pub struct Unbalanced {
    pub pushed: u128,
    pub popped: u128,
}

/// The items of a channel that can't be balanced, by its number.
pub fn unbalanced_items(
    alloc: Global,
    graph: &Graph,
    channel: usize,
) -> Result<Option<Unbalanced>, NoMemory> {
    let mut shares = first_shares(alloc, graph)?;
    for _node in 0..graph.nodes().len() {
        let Some(given) = next_given(graph, &shares, Some(channel)) else {
            break;
        };
        if let Some(share) = shares.get_mut(given.node) {
            *share = Some(given.share);
        }
    }
    Ok(items_by(graph, &shares, channel))
}

/// The items of a channel of whose nodes the shares are known.
fn items_by(graph: &Graph, shares: &[Option<Share>], channel: usize) -> Option<Unbalanced> {
    let found = graph.channels().get(channel)?;
    let (push, pop) = rates_of(graph, found)?;
    let source = (*shares.get(found.source.node as usize)?)?;
    let target = (*shares.get(found.target.node as usize)?)?;
    let rounds = multiple(source.bottom, target.bottom);
    let pushed = moved(source, rounds, push);
    let popped = moved(target, rounds, pop);
    let common = divisor(pushed, popped);
    Some(Unbalanced {
        pushed: quotient(pushed, common),
        popped: quotient(popped, common),
    })
}

/// How many items a node moves that moves so many in a firing, in so many firings of node 0.
fn moved(share: Share, rounds: u128, rate: u128) -> u128 {
    let firings = share.top.saturating_mul(quotient(rounds, share.bottom));
    firings.saturating_mul(rate)
}
