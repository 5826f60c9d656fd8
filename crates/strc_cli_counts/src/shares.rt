// How often nodes fire for each firing of node 0, as channels tell from node to node.

ghost use Rattle.std.specs.Prelude.{◌<◌, IfSome, length};
ghost use Rattle.strc_elab_graph.specs.NodeView.{graph_view};

use std::alloc::{AllocError, Global};
use strc_cli_source::channel_rates::rates_of;
use strc_elab_graph::graph::{Channel, Graph};

/// Two numbers of 128 bits have their divisor after fewer steps.
const MOST_STEPS: usize = 200;

/// How often a node fires for each firing of node 0, in lowest terms.
#[derive(Clone, Copy)]
pub(crate) struct Share {
    pub(crate) top: u128,
    pub(crate) bottom: u128,
}

/// A node whose share is known, and the channel that gave it.
#[derive(Clone, Copy)]
pub(crate) struct Given {
    pub(crate) channel: usize,
    pub(crate) node: usize,
    pub(crate) share: Share,
}

/// The share of node 0, and none of the others.
pub(crate) fn first_shares(alloc: Global, graph: &Graph) -> Result<Vec<Option<Share>>, AllocError> {
    let mut shares: Vec<Option<Share>> = Vec::from_elem(alloc, None, graph.nodes().len())?;
    if let Some(first) = shares.get_mut(0) {
        *first = Some(Share { top: 1, bottom: 1 });
    }
    Ok(shares)
}

/// The lowest channel but this one of which one end is known gives the other.
pub(crate) fn next_given(
    graph: &Graph,
    shares: &[Option<Share>],
    without: Option<usize>,
) -> Option<Given>
    ensures { IfSome result (λ given. given.channel < length (graph_view graph.now).channels) }
{
    let channels = graph.channels();
    for number in 0..channels.len() {
        if without == Some(number) {
            continue;
        }
        if let Some((node, share)) = given_by(graph, shares, &channels[number]) {
            return Some(Given {
                channel: number,
                node,
                share,
            });
        }
    }
    None
}

fn given_by(graph: &Graph, shares: &[Option<Share>], channel: &Channel) -> Option<(usize, Share)> {
    let (source, target) = (channel.source.node as usize, channel.target.node as usize);
    let (push, pop) = rates_of(graph, channel)?;
    match (*shares.get(source)?, *shares.get(target)?) {
        (Some(known), None) => Some((target, scaled(known, push, pop))),
        (None, Some(known)) => Some((source, scaled(known, pop, push))),
        _ => None,
    }
}

/// The share of a node that takes so many items a firing, of which the known one gives so many.
fn scaled(known: Share, given: u128, taken: u128) -> Share {
    let top = known.top.saturating_mul(given);
    let bottom = known.bottom.saturating_mul(taken);
    let common = divisor(top, bottom);
    Share {
        top: quotient(top, common),
        bottom: quotient(bottom, common),
    }
}

/// The least common multiple of two numbers.
pub(crate) fn multiple(one: u128, other: u128) -> u128 {
    quotient(one, divisor(one, other)).saturating_mul(other)
}

/// The greatest common divisor of two numbers.
pub(crate) fn divisor(one: u128, other: u128) -> u128 {
    let mut greater = one;
    let mut less = other;
    for _step in 0..MOST_STEPS {
        if less == 0 {
            break;
        }
        let rest = greater % less;
        greater = less;
        less = rest;
    }
    greater
}

pub(crate) fn quotient(number: u128, by: u128) -> u128 {
    if by == 0 { number } else { number / by }
}
