// Nodes on which no output depends, and what is known of all filters of a graph.

use std::alloc::{AllocError, Global};
use strc_elab_graph::graph::{Channel, Graph, Node};
use strc_work_meaning::body::Body;

/// For each node, whether an output depends on it: it prints or writes, or what it gives comes to
/// one that does.
pub(crate) fn needed_nodes(alloc: Global, graph: &Graph) -> Result<Vec<bool>, AllocError> {
    let mut needed = Vec::new(alloc);
    for node in graph.nodes() {
        needed.push(writes(node))?;
    }
    for _pass in 0..graph.nodes().len() {
        if !spread(graph.channels(), &mut needed) {
            return Ok(needed);
        }
    }
    Ok(needed)
}

/// Takes in the sources of channels whose targets are needed. Gives whether there were more.
fn spread(channels: &[Channel], needed: &mut Vec<bool>) -> bool {
    let mut are_more = false;
    for past in 0..channels.len() {
        let channel = &channels[channels.len() - 1 - past];
        let (source, target) = (channel.source.node as usize, channel.target.node as usize);
        let is_needed = needed.get(target) == Some(&true);
        if let Some(known) = needed.get_mut(source) {
            are_more = are_more || (is_needed && !*known);
            *known = *known || is_needed;
        }
    }
    are_more
}

/// Whether a firing of a node can write an output.
fn writes(node: &Node) -> bool {
    match node {
        Node::Filter(filter) => filter.code.prints(),
        Node::FileWriter(_) => true,
        Node::Identity
        | Node::FileReader(_)
        | Node::Splitter(_)
        | Node::Joiner(_)
        | Node::Scatter(_)
        | Node::Copy(_, _)
        | Node::Gather(_) => false,
    }
}

/// Whether each filter pushes and pops one item a firing at most.
pub(crate) fn moves_items_singly(graph: &Graph) -> bool {
    graph.nodes().iter().all(|node| match node {
        Node::Filter(filter) => {
            let rates = filter.code.rates(Body::Work);
            rates.push <= 1 && rates.pop <= 1
        }
        _ => true,
    })
}

/// Whether a filter, or `Identity`, keeps nothing from firing to firing, so that it can be split.
pub(crate) fn has_stateless_filter(graph: &Graph) -> bool {
    graph.nodes().iter().any(|node| match node {
        Node::Filter(filter) => filter.code.is_stateless(),
        Node::Identity => true,
        _ => false,
    })
}
