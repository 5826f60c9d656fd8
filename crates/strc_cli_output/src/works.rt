// The lines of a plan with the path, the work and the buffers of each node.

ghost use Rattle.std.specs.Prelude.{◌≡◌, ◌<◌, ◌++◌, [], IfOk, OnOk, length, slice_index_or};
ghost use Rattle.strc_cli_output.specs.Works as spec;

use crate::node_order::{NodeOrder, numbers_in};
use crate::output::plan_text;
use crate::text::Piece::{Bytes, Number};
use crate::text::push_pieces;
use crate::totals::{sizes_behind, sum_of};
use std::alloc::{AllocError, Global};
use strc_elab_paths::paths::paths_of;
use strc_elab_stream::stream::Stream;
use strc_stage_plan::plan::Plan;
use strc_stage_weights::firing_work::firing_works;
use strc_stage_weights::node_work::work_in_round;

/// What is told of nodes: the path of each, the work of a firing and of a round, and the items that
/// fit in the buffers behind it.
#[derive(Clone, Copy)]
struct Told<'a> {
    paths: &'a [Vec<u8>],
    firings: &'a [u32],
    rounds: &'a [u64],
    sizes: &'a [u64],
}

/// The lines of a plan; then for each node one for its path, one for its work, and one for the
/// buffers behind it, the nodes in this order; and last one for all of it. The stream is the one
/// that the plan's graph is of.
pub fn long_plan_text(
    alloc: Global,
    plan: &Plan,
    stream: &Stream,
    order: NodeOrder,
) -> Result<Vec<u8>, AllocError>
    ensures { IfOk result (λ text. spec.IsLongPlanText plan.now stream.now order text.items) }
{
    plan.known();
    let graph = plan.graph();
    let paths = paths_of(alloc, stream)?;
    let firings = firing_works(alloc, graph.nodes())?;
    let rounds = round_works(alloc, &firings, plan.round_counts().as_slice())?;
    let sizes = sizes_behind(alloc, graph, plan.sizes())?;
    let numbers = numbers_in(alloc, order, &rounds, &sizes)?;
    let told = Told {
        paths: &paths,
        firings: &firings,
        rounds: &rounds,
        sizes: &sizes,
    };
    let mut text = plan_text(alloc, plan)?;
    push_nodes(&mut text, told, &numbers)?;
    push_totals(
        &mut text,
        graph.nodes().len(),
        graph.channels().len(),
        sum_of(&sizes),
        sum_of(&rounds),
    )?;
    Ok(text)
}

// The work in a round of nodes whose firings have so much, and that fire so often in it.
fn round_works(alloc: Global, firings: &[u32], counts: &[u32]) -> Result<Vec<u64>, AllocError>
    requires { length firings.now ≡ length counts.now }
    ensures { IfOk result (λ works. works.items ≡ spec.round_works firings.now counts.now) }
{
    let mut works = Vec::with_capacity(alloc, counts.len())?;
    for node in 0..counts.len() {
        works.push(work_in_round(counts[node], firings[node]))?;
    }
    Ok(works)
}

// The lines of nodes, in the order of these numbers.
fn push_nodes(text: &mut Vec<u8>, told: Told<'_>, numbers: &[usize]) -> Result<(), AllocError>
    ensures { OnOk result (text.new.items ≡ text.old.items
        ++ spec.node_lines (spec.told_view told.entry) numbers.now) }
{
    for node in numbers {
        push_node(text, told, *node)?;
    }
    Ok(())
}

// The lines of a node: its path, the work of a firing and a round of it, and the items that fit in
// the buffers behind it.
fn push_node(text: &mut Vec<u8>, told: Told<'_>, node: usize) -> Result<(), AllocError>
    ensures { OnOk result (text.new.items ≡ text.old.items
        ++ spec.node_line (spec.told_view told.entry) node) }
{
    push_path(text, node, path_at(told.paths, node))?;
    let firing = firing_at(told.firings, node);
    push_work(text, node, firing, number_at(told.rounds, node))?;
    push_size(text, node, number_at(told.sizes, node))
}

// The line of a node's path.
fn push_path(text: &mut Vec<u8>, node: usize, path: &[u8]) -> Result<(), AllocError>
    ensures { OnOk result (text.new.items ≡ text.old.items ++ spec.path_line node path.now) }
{
    push_pieces(
        text,
        &[
            Bytes(b"path "),
            Number(node as u64),
            Bytes(b" "),
            Bytes(path),
            Bytes(b"\n"),
        ],
    )
}

// The line of the work of a firing and of a round of a node.
fn push_work(text: &mut Vec<u8>, node: usize, firing: u32, round: u64) -> Result<(), AllocError>
    ensures { OnOk result (text.new.items ≡ text.old.items
        ++ spec.work_line node firing round) }
{
    push_pieces(
        text,
        &[
            Bytes(b"work "),
            Number(node as u64),
            Bytes(b" firing "),
            Number(u64::from(firing)),
            Bytes(b" round "),
            Number(round),
            Bytes(b"\n"),
        ],
    )
}

// The line of the items that fit in the buffers behind a node.
fn push_size(text: &mut Vec<u8>, node: usize, items: u64) -> Result<(), AllocError>
    ensures { OnOk result (text.new.items ≡ text.old.items ++ spec.size_line node items) }
{
    push_pieces(
        text,
        &[
            Bytes(b"size "),
            Number(node as u64),
            Bytes(b" items "),
            Number(items),
            Bytes(b"\n"),
        ],
    )
}

// The line of all nodes and channels: how many there are, the items that fit in all buffers, and
// the work of a round.
fn push_totals(
    text: &mut Vec<u8>,
    nodes: usize,
    channels: usize,
    items: u64,
    work: u64,
) -> Result<(), AllocError>
    ensures { OnOk result (text.new.items ≡ text.old.items
        ++ spec.total_line nodes channels items work) }
{
    push_pieces(
        text,
        &[
            Bytes(b"total nodes "),
            Number(nodes as u64),
            Bytes(b" channels "),
            Number(channels as u64),
            Bytes(b" items "),
            Number(items),
            Bytes(b" work "),
            Number(work),
            Bytes(b"\n"),
        ],
    )
}

// A node's path, where there is such a node.
fn path_at(paths: &[Vec<u8>], node: usize) -> &[u8]
    ensures { result.now ≡ spec.path_at paths.now node }
{
    match paths.get(node) {
        Some(path) => path.as_slice(),
        None => b"",
    }
}

fn firing_at(works: &[u32], node: usize) -> u32
    ensures { result ≡ slice_index_or works.now node 0 }
{
    if node < works.len() { works[node] } else { 0 }
}

fn number_at(numbers: &[u64], node: usize) -> u64
    ensures { result ≡ slice_index_or numbers.now node 0 }
{
    if node < numbers.len() {
        numbers[node]
    } else {
        0
    }
}
