// What stands for each part of a node: nodes, origins and outermost loops.

ghost use Rattle.std.specs.Prelude.{◌≡◌, suc, ◌+◌, ◌<◌, ◌≤◌, ◌^◌, ◌++◌, IfOk, OnOk, Some};
ghost use Rattle.std.specs.Prelude.{length, map};
ghost use Rattle.std.specs.Prelude.{cond, get_or, nat_lt, option_map, slice_get};
ghost use Rattle.strc_elab_graph.specs.NodeView.{node_view};
ghost use Rattle.strc_fiss.specs.Numbers.{up_to, share_at, last_of, first_of, base, each_part};
ghost use Rattle.strc_fiss.specs.Numbers.{origin_of, is_dealt};
ghost use Rattle.strc_fiss.specs.Splitting as spec;
ghost use Rattle.strc_fiss.specs.declared.split.Origin.{Origin};

use crate::numbers::part_count;
use crate::split::Origin;
use crate::unit_copies::copied_of;
use std::alloc::{AllocError, Global};
use strc_elab_graph::graph::{Fission, Graph, Node};
use strc_elab_graph::node_copy::copy_node;
use strc_lex_names::memory::NoMemory;

/// The parts of all nodes.
pub(crate) fn new_nodes(
    alloc: Global,
    nodes: &[Node],
    shares: &[Fission],
) -> Result<Vec<Node>, NoMemory>
    requires { length shares.now ≡ length nodes.now }
    ensures { IfOk result (λ parts. map node_view parts.items ≡ each_part (share_at shares.now)
        (spec.new_code (share_at shares.now) (map node_view nodes.now)) (length nodes.now)) }
{
    let mut parts = Vec::with_capacity(alloc, nodes.len())?;
    for node in 0..nodes.len() {
        push_nodes(alloc, &mut parts, &nodes[node], shares[node])?;
    }
    Ok(parts)
}

/// Adds the parts of a node.
fn push_nodes(
    alloc: Global,
    parts: &mut Vec<Node>,
    node: &Node,
    share: Fission,
) -> Result<(), NoMemory>
    ensures { OnOk result (map node_view parts.new.items ≡ map node_view parts.old.items
        ++ up_to (spec.part_code (node_view node.now) share) (suc (last_of share))) }
{
    for part in 0..part_count(share) {
        parts.push(part_node(alloc, node, share, part)?)?;
    }
    Ok(())
}

/// A part of a node.
fn part_node(alloc: Global, node: &Node, share: Fission, part: u64) -> Result<Node, NoMemory>
    ensures { IfOk result (λ made. node_view made
        ≡ spec.part_code (node_view node.now) share part) }
{
    if share.ways <= 1 {
        copy_node(alloc, node)
    } else {
        dealt_part(alloc, node, share, part)
    }
}

/// A part of a node that is split.
fn dealt_part(alloc: Global, node: &Node, share: Fission, part: u64) -> Result<Node, NoMemory>
    ensures { IfOk result (λ made. node_view made
        ≡ spec.part_of (node_view node.now) share part) }
{
    if part == 0 {
        Ok(Node::Scatter(share))
    } else if part <= u64::from(share.ways) {
        Ok(Node::Copy(copied_of(alloc, node)?, share))
    } else {
        Ok(Node::Gather(share))
    }
}

/// What each part is a part of.
pub(crate) fn new_origins(alloc: Global, shares: &[Fission]) -> Result<Vec<Origin>, AllocError>
    requires { length shares.now ≤ 2 ^ 32 }
    ensures { IfOk result (λ origins. origins.items ≡ each_part (share_at shares.now)
        (origin_of (share_at shares.now)) (length shares.now)) }
{
    let mut origins = Vec::with_capacity(alloc, shares.len())?;
    for node in 0..shares.len() {
        push_origins(&mut origins, node as u32, shares[node])?;
    }
    Ok(origins)
}

/// Adds those of a node's parts.
fn push_origins(origins: &mut Vec<Origin>, node: u32, share: Fission) -> Result<(), AllocError>
    ensures { OnOk result (origins.new.items ≡ origins.old.items
        ++ up_to (λ part. record { node = node; first = first_of share part })
        (suc (last_of share))) }
{
    for part in 0..part_count(share) {
        origins.push(Origin {
            node,
            first: first_firing(share, part),
        })?;
    }
    Ok(())
}

/// The first firing of a part in a round.
fn first_firing(share: Fission, part: u64) -> u64
    ensures { result ≡ first_of share part }
{
    if part > 0 && part <= u64::from(share.ways) {
        (part - 1) * u64::from(share.firings)
    } else {
        0
    }
}

/// The outermost loops of all parts.
pub(crate) fn new_loops(
    alloc: Global,
    graph: &Graph,
    shares: &[Fission],
    bases: &[u32],
) -> Result<Vec<Option<u32>>, AllocError>
    requires shares { length shares.now ≡ length graph.now.nodes }
    requires bases { bases.now ≡ up_to (base (share_at shares.now)) (suc (length shares.now)) }
    ensures { IfOk result (λ loops. loops.items ≡ each_part (share_at shares.now)
        (spec.new_loop (share_at shares.now) (length graph.now.nodes) graph.now.outer_loops)
        (length graph.now.nodes)) }
{
    let mut loops = Vec::with_capacity(alloc, shares.len())?;
    for node in 0..shares.len() {
        let outer = new_outer(graph.outer_loop(node), bases, shares.len());
        push_loops(&mut loops, outer, shares[node])?;
    }
    Ok(loops)
}

/// Adds the outermost loop of each part of a node.
fn push_loops(
    loops: &mut Vec<Option<u32>>,
    outer: Option<u32>,
    share: Fission,
) -> Result<(), AllocError>
    ensures { OnOk result (loops.new.items ≡ loops.old.items
        ++ up_to (λ part. outer) (suc (last_of share))) }
{
    for part in 0..part_count(share) {
        loops.push(outer)?;
    }
    Ok(())
}

/// An outermost loop by the new number of its joiner; what is no node keeps its number.
fn new_outer(outer: Option<u32>, bases: &[u32], size: usize) -> Option<u32>
    requires { size ≤ length bases.now }
    ensures { result ≡ option_map (λ node. cond (nat_lt node size) (get_or bases.now node 0) node)
        outer }
{
    let node = outer?;
    if (node as usize) < size {
        Some(bases[node as usize])
    } else {
        Some(node)
    }
}
