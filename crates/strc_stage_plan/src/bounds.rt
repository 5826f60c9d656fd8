// Bounds of stages: a graph's groups, shared among workers.

ghost use Rattle.std.specs.Prelude.{◌≡◌, ◌*◌, ◌/◌, ◌<◌, ◌≤◌, ◌++◌, ◌∷◌, [], length, map, min, IfOk};
ghost use Rattle.std.specs.Prelude.{All, ◌&&◌, false, get_or, None, not, slice_index_or};
ghost use Rattle.std.specs.List.{range_with_len};
ghost use Rattle.strc_sched_orders.specs.Peaks.{HasNodes};
ghost use Rattle.strc_fuse.specs.Units.{round_units};
ghost use Rattle.strc_stage_plan.specs.Bounds as spec;

use crate::unit_span::parted_units;
use std::alloc::{AllocError, Global};
use strc_elab_graph::graph::Graph;
use strc_sched_orders::unit::Unit;

/// The bounds of a round's stages for so many workers: the node with which each stage begins, and
/// the number of nodes.
///
/// A group is all nodes of an outermost feedback loop, or those of one unit of the round outside
/// feedback loops. There are as many stages as workers, or as groups where these are fewer. A stage
/// has the groups that fall to it when stages share them evenly, by number.
pub fn stage_bounds(
    alloc: Global,
    graph: &Graph,
    round: &[Unit],
    workers: u32,
) -> Result<Vec<usize>, AllocError>
    requires loops { length graph.now.outer_loops ≡ length graph.now.nodes }
    requires nodes { All (HasNodes (length graph.now.nodes)) round.now }
    ensures { IfOk result (λ bounds. bounds.items
        ≡ spec.stage_bounds graph.now.outer_loops (round_units round.now) workers) }
{
    let starts = group_starts(alloc, graph, round)?;
    let stages = starts.len().min(workers as usize);
    shared(alloc, graph.nodes().len(), &starts, stages)
}

/// The nodes with which groups begin.
fn group_starts(alloc: Global, graph: &Graph, round: &[Unit]) -> Result<Vec<usize>, AllocError>
    requires loops { length graph.now.outer_loops ≡ length graph.now.nodes }
    requires nodes { All (HasNodes (length graph.now.nodes)) round.now }
    ensures { IfOk result (λ starts. starts.items
        ≡ spec.group_starts graph.now.outer_loops (round_units round.now)) }
{
    let nodes = graph.nodes().len();
    let parted = parted_units(alloc, nodes, round)?;
    let mut starts = Vec::new(alloc);
    for node in 0..nodes {
        if begins_group(graph, &parted, node) {
            starts.push(node)?;
        }
    }
    Ok(starts)
}

/// Whether a group begins with a node: it is within no loop and no unit.
fn begins_group(graph: &Graph, parted: &[bool], node: usize) -> bool
    requires node { node < length graph.now.nodes }
    requires marks { node < length parted.now }
    ensures { result ≡ (spec.begins (get_or graph.now.outer_loops node None) node
        && not (slice_index_or parted.now node false)) }
{
    begins_loop(graph, node) && !parted[node]
}

/// Whether a node isn't past the beginning of its outermost loop, where it is in one: a loop has
/// its joiner's number.
fn begins_loop(graph: &Graph, node: usize) -> bool
    requires { node < length graph.now.nodes }
    ensures { result ≡ spec.begins (get_or graph.now.outer_loops node None) node }
{
    match graph.outer_loop(node) {
        Some(joiner) => node <= joiner as usize,
        None => true,
    }
}

/// The bounds of so many stages that share the groups that begin with these nodes.
fn shared(
    alloc: Global,
    nodes: usize,
    starts: &[usize],
    stages: usize,
) -> Result<Vec<usize>, AllocError>
    requires { stages ≤ length starts.now }
    ensures { IfOk result (λ bounds. bounds.items
        ≡ map (spec.bound_at nodes starts.now stages) (range_with_len 0 stages) ++ nodes ∷ []) }
{
    let mut bounds = Vec::new(alloc);
    for stage in 0..stages {
        bounds.push(starts[first_group(starts.len(), stages, stage)])?;
    }
    bounds.push(nodes)?;
    Ok(bounds)
}

/// The first group of a stage. A product of two numbers of 64 bits has at most 128.
fn first_group(groups: usize, stages: usize, stage: usize) -> usize
    requires within { stage < stages }
    requires some { stages ≤ groups }
    ensures is { result ≡ spec.first_group groups stages stage }
    ensures less { result < groups }
{
    (stage as u128 * groups as u128 / stages as u128) as usize
}
