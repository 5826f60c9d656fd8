// Nodes, copied: all of a graph's, or those of a part of it.

ghost use Rattle.std.specs.Prelude.{◌≡◌, IfOk, map, if◌then◌else◌};
ghost use Rattle.strc_elab_graph.specs.Graphs as graphs;
ghost use Rattle.strc_elab_graph.specs.NodeView.{node_view};
ghost use Rattle.strc_sched_rings.specs.Parts.{part_codes};

use crate::range::is_within;
use std::alloc::Global;
use strc_elab_graph::graph::Node;
use strc_elab_graph::node_copy::copy_node;
use strc_lex_names::memory::NoMemory;

/// The nodes from `first` up to `next`, and identities in place of the others.
pub(crate) fn part_nodes(
    alloc: Global,
    nodes: &[Node],
    first: usize,
    next: usize,
) -> Result<Vec<Node>, NoMemory>
    ensures { IfOk result (λ part. map node_view part.items
        ≡ part_codes first next 0 (map node_view nodes.now)) }
{
    let mut part = Vec::with_capacity(alloc, nodes.len())?;
    for number in 0..nodes.len() {
        let own = is_within(first, next, number);
        part.push(part_node(alloc, &nodes[number], own)?)?;
    }
    Ok(part)
}

/// A node of the part, or an identity in place of another one.
fn part_node(alloc: Global, node: &Node, own: bool) -> Result<Node, NoMemory>
    ensures { IfOk result (λ copy. node_view copy
        ≡ (if own then node_view node.now else graphs.Identity)) }
{
    if own {
        copy_node(alloc, node)
    } else {
        Ok(Node::Identity)
    }
}
