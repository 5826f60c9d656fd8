// How often the nodes of a graph after fission fire, and what they are called.

ghost use Rattle.std.specs.Prelude.{◌≡◌, IfOk, map};
ghost use Rattle.strc_elab_graph.specs.NodeView.{node_view};
ghost use Rattle.strc_cli_pictures.specs.Parts as spec;

use crate::nodes::{count_of, label_at};
use std::alloc::{AllocError, Global};
use strc_elab_graph::graph::{Graph, Node};
use strc_fiss::split::Origin;

/// How often each of these nodes after fission fires in a round, where those that they come from
/// fire so often: a scatter and a gather once, and a copy as often as falls to it.
pub fn round_shares(
    alloc: Global,
    nodes: &[Node],
    origins: &[Origin],
    counts: &[u32],
) -> Result<Vec<u32>, AllocError>
    ensures { IfOk result (λ shares. shares.items
        ≡ spec.round_shares nodes.now origins.now counts.now) }
{
    let mut shares = Vec::new(alloc);
    for number in 0..nodes.len() {
        let count = count_before(origins, counts, number);
        shares.push(round_share(&nodes[number], count))?;
    }
    Ok(shares)
}

/// How often each of them fires before the first round: parts of a node that is split don't.
pub fn startup_shares(
    alloc: Global,
    nodes: &[Node],
    origins: &[Origin],
    counts: &[u32],
) -> Result<Vec<u32>, AllocError>
    ensures { IfOk result (λ shares. shares.items
        ≡ spec.startup_shares nodes.now origins.now counts.now) }
{
    let mut shares = Vec::new(alloc);
    for number in 0..nodes.len() {
        let count = count_before(origins, counts, number);
        shares.push(startup_share(&nodes[number], count))?;
    }
    Ok(shares)
}

/// What each node of a graph after fission is called, where those that they come from have these
/// labels: a scatter and a gather what they are, and any other node as the one it comes from.
pub fn labels_after(
    alloc: Global,
    graph: &Graph,
    origins: &[Origin],
    labels: &[Vec<u8>],
) -> Result<Vec<Vec<u8>>, AllocError>
    ensures { IfOk result (λ after. map (λ l. l.items) after.items
        ≡ spec.labels_after graph.now.nodes origins.now (map (λ l. l.items) labels.now)) }
{
    let mut after = Vec::new(alloc);
    for number in 0..graph.nodes().len() {
        let before = label_before(origins, labels, number);
        let label = label_after(&graph.nodes()[number], before);
        after.push(label.to_vec(alloc)?)?;
    }
    Ok(after)
}

/// What a node is called that comes from one of this label.
fn label_after<'a>(node: &Node, before: &'a [u8]) -> &'a [u8]
    ensures { result.now ≡ spec.label_after (node_view node.now) before.now }
{
    match node {
        Node::Scatter(_) => b"scatter",
        Node::Gather(_) => b"gather",
        _ => before,
    }
}

/// The label of the node that one after fission comes from.
fn label_before<'a>(origins: &[Origin], labels: &'a [Vec<u8>], number: usize) -> &'a [u8]
    ensures { result.now ≡ spec.label_before origins.now (map (λ l. l.items) labels.now) number }
{
    match origins.get(number) {
        Some(origin) => label_at(labels, origin.node as usize),
        None => b"",
    }
}

/// A node's share of so many firings in a round.
fn round_share(node: &Node, count: u32) -> u32
    ensures { result ≡ spec.round_share (node_view node.now) count }
{
    match node {
        Node::Scatter(_) | Node::Gather(_) => 1,
        Node::Copy(_, fission) => fission.firings,
        _ => count,
    }
}

/// A node's share of so many firings before the first round.
fn startup_share(node: &Node, count: u32) -> u32
    ensures { result ≡ spec.startup_share (node_view node.now) count }
{
    match node {
        Node::Scatter(_) | Node::Copy(_, _) | Node::Gather(_) => 0,
        _ => count,
    }
}

/// The count of the node that one after fission comes from.
fn count_before(origins: &[Origin], counts: &[u32], number: usize) -> u32
    ensures { result ≡ spec.count_before origins.now counts.now number }
{
    match origins.get(number) {
        Some(origin) => count_of(counts, origin.node as usize),
        None => 0,
    }
}
