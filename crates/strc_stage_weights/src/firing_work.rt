// The work of a firing of a node.

ghost use Rattle.std.specs.Prelude.{◌≡◌, IfOk, map, min};
ghost use Rattle.strc_elab_graph.specs.NodeView.{copied_view, node_view};
ghost use Rattle.strc_stage_weights.specs.FiringWork as spec;

use std::alloc::{AllocError, Global};
use strc_elab_graph::graph::{Copied, Node, output_ports};
use strc_elab_graph::rates::pushes_at;
use strc_rate_estimate::filters::firing_estimate;

/// What a firing of a builtin that moves an item is taken for, in operations.
pub const BUILTIN_WORK: u32 = 1;

/// How many items splitters, joiners, scatters and gathers move by what is taken for an operation.
pub const ITEMS_OF_OPERATION: u128 = 4;

/// Of more items than so many a firing isn't counted.
pub const ITEM_LIMIT: u128 = 4_000_000_000;

/// The work of a firing of each node, in operations: from 0 on, saturated at 1,000,000,000.
///
/// A filter has what is estimated by its text, and a copy what its filter has. `Identity` and what
/// reads or writes an item have 1; splitters, joiners, scatters and gathers 1 for each four items
/// that a firing after the first gives, rounded up.
pub fn firing_works(alloc: Global, nodes: &[Node]) -> Result<Vec<u32>, AllocError>
    ensures { IfOk result (λ works. works.items ≡ spec.firing_works (map node_view nodes.now)) }
{
    let mut works = Vec::with_capacity(alloc, nodes.len())?;
    for node in nodes {
        works.push(work_of_firing(alloc, node)?)?;
    }
    Ok(works)
}

/// The work of a firing of a node.
fn work_of_firing(alloc: Global, node: &Node) -> Result<u32, AllocError>
    ensures { IfOk result (λ work. work ≡ spec.firing_work (node_view node.now)) }
{
    match node {
        Node::Filter(instance) => firing_estimate(alloc, instance.code.tree()),
        Node::Identity | Node::FileReader(_) | Node::FileWriter(_) => Ok(BUILTIN_WORK),
        Node::Splitter(_) | Node::Joiner(_) | Node::Scatter(_) | Node::Gather(_) => Ok(moving_work(
            items_given(node),
        )),
        Node::Copy(copied, _) => copied_work(alloc, copied),
    }
}

/// The work of a firing of a copy: that of what it copies.
fn copied_work(alloc: Global, copied: &Copied) -> Result<u32, AllocError>
    ensures { IfOk result (λ work. work ≡ spec.copied_work (copied_view copied.now)) }
{
    match copied {
        Copied::Filter(instance) => firing_estimate(alloc, instance.code.tree()),
        Copied::Identity => Ok(BUILTIN_WORK),
    }
}

/// The work of moving so many items.
fn moving_work(items: u128) -> u32
    ensures { result ≡ spec.moving_work items }
{
    ((items.min(ITEM_LIMIT) + (ITEMS_OF_OPERATION - 1)) / ITEMS_OF_OPERATION) as u32
}

/// How many items a firing after the first gives, at all ports, up to the limit.
fn items_given(node: &Node) -> u128
    ensures { result ≡ min (spec.all_given (node_view node.now)) ITEM_LIMIT }
{
    let mut items: u128 = 0;
    for port in 0..output_ports(node) {
        items = (items + pushes_at(node, 1, port)).min(ITEM_LIMIT);
    }
    items
}
