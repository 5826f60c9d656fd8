// The lines of nodes.

ghost use Rattle.std.specs.Prelude.{◌≡◌, ◌++◌, [], map, None, OnOk, slice_index_or};
ghost use Rattle.strc_cli_pictures.specs.Pictures as spec;
ghost use Rattle.strc_cli_pictures.specs.Lists.{nodes_of};

use crate::large_numbers::push_number;
use std::alloc::AllocError;
use strc_cli_output::text::Piece::{Bytes, Number};
use strc_cli_output::text::{push_bytes, push_pieces};
use strc_elab_graph::graph::Node;

/// What is written of nodes: the label of each, how often it fires before the first round and in a
/// round, the tapes of those that have one, and in thousandths the share of the time of those of
/// which it is known.
#[derive(Clone, Copy)]
pub(crate) struct Counted<'a> {
    pub(crate) labels: &'a [Vec<u8>],
    pub(crate) nodes: &'a [Node],
    pub(crate) startup: &'a [u32],
    pub(crate) round: &'a [u32],
    pub(crate) tapes: &'a [Option<usize>],
    pub(crate) shares: &'a [Option<u32>],
}

/// The line of a node: its number and its label, how often it fires in a round and before the first
/// one, its tape, its share of the time, and its shape.
pub(crate) fn push_node(
    text: &mut Vec<u8>,
    counted: Counted<'_>,
    node: usize,
) -> Result<(), AllocError>
    ensures { OnOk result (text.new.items ≡ text.old.items
        ++ spec.node_line (nodes_of counted.entry) node) }
{
    push_name(text, counted.labels, node)?;
    push_counts(text, counted, node)?;
    push_tape(text, tape_of(counted.tapes, node))?;
    push_end(
        text,
        shape_of(counted.nodes, node),
        share_of(counted.shares, node),
    )
}

/// The end of the line of a node of this shape and this share of the time.
pub(crate) fn push_end(
    text: &mut Vec<u8>,
    shape: &[u8],
    share: Option<u32>,
) -> Result<(), AllocError>
    ensures { OnOk result (text.new.items ≡ text.old.items ++ spec.end_words shape.now share) }
{
    match share {
        Some(share) => push_shared_end(text, shape, share),
        None => push_pieces(text, &[Bytes(b"\""), Bytes(shape), Bytes(b"];\n")]),
    }
}

/// That of one of which the share is known: the more of the time, the more red it is.
fn push_shared_end(text: &mut Vec<u8>, shape: &[u8], share: u32) -> Result<(), AllocError>
    ensures { OnOk result (text.new.items ≡ text.old.items
        ++ spec.shared_end_words shape.now share) }
{
    let share = u64::from(share);
    push_percent(text, share)?;
    push_bytes(text, shape)?;
    push_color(text, share)
}

/// A share of the time as a percentage.
fn push_percent(text: &mut Vec<u8>, share: u64) -> Result<(), AllocError>
    ensures { OnOk result (text.new.items ≡ text.old.items ++ spec.percent_words share) }
{
    push_pieces(
        text,
        &[
            Bytes(b"\\n"),
            Number(share / 10),
            Bytes(b"."),
            Number(share % 10),
            Bytes(b" % of the time\""),
        ],
    )
}

/// The red that a share of the time has.
fn push_color(text: &mut Vec<u8>, share: u64) -> Result<(), AllocError>
    ensures { OnOk result (text.new.items ≡ text.old.items ++ spec.color_words share) }
{
    push_pieces(
        text,
        &[
            Bytes(b", style=filled, fillcolor=\"0.000 "),
            Number(share / 1000),
            Bytes(b"."),
            Number(share / 100 % 10),
            Number(share / 10 % 10),
            Number(share % 10),
            Bytes(b" 1.000\"];\n"),
        ],
    )
}

/// The shape of a node, where it isn't a box.
fn shape_of(nodes: &[Node], node: usize) -> &'static [u8]
    ensures { result.now ≡ spec.shape_at nodes.now node }
{
    match nodes.get(node) {
        Some(Node::Scatter(_)) => b", shape=trapezium",
        Some(Node::Copy(_, _)) => b", shape=box3d",
        Some(Node::Gather(_)) => b", shape=invtrapezium",
        _ => b"",
    }
}

/// The beginning of a node's line, up to its number and its label.
fn push_name(text: &mut Vec<u8>, labels: &[Vec<u8>], node: usize) -> Result<(), AllocError>
    ensures { OnOk result (text.new.items ≡ text.old.items
        ++ spec.name_words (map (λ l. l.items) labels.now) node) }
{
    push_bytes(text, b"  n")?;
    push_number(text, node as u128)?;
    push_bytes(text, b" [label=\"")?;
    push_number(text, node as u128)?;
    push_bytes(text, b" ")?;
    push_bytes(text, label_at(labels, node))
}

/// How often a node fires in a round and before the first one.
fn push_counts(text: &mut Vec<u8>, counted: Counted<'_>, node: usize) -> Result<(), AllocError>
    ensures { OnOk result (text.new.items ≡ text.old.items
        ++ spec.count_words (nodes_of counted.entry) node) }
{
    push_bytes(text, b"\\n")?;
    push_number(text, u128::from(count_of(counted.round, node)))?;
    push_bytes(text, b" a round")?;
    push_startup(text, count_of(counted.startup, node))
}

/// How often a node fires before the first round, where it does.
fn push_startup(text: &mut Vec<u8>, count: u32) -> Result<(), AllocError>
    ensures { OnOk result (text.new.items ≡ text.old.items ++ spec.startup_words count) }
{
    if count == 0 {
        return Ok(());
    }
    push_bytes(text, b", ")?;
    push_number(text, u128::from(count))?;
    push_bytes(text, b" before")
}

/// The number of a node's tape, where it has one.
fn push_tape(text: &mut Vec<u8>, tape: Option<usize>) -> Result<(), AllocError>
    ensures { OnOk result (text.new.items ≡ text.old.items ++ spec.tape_words tape) }
{
    match tape {
        Some(number) => {
            push_bytes(text, b"\\ntape ")?;
            push_number(text, number as u128)
        }
        None => Ok(()),
    }
}

/// A node's tape.
fn tape_of(tapes: &[Option<usize>], node: usize) -> Option<usize>
    ensures { result ≡ slice_index_or tapes.now node None }
{
    if node < tapes.len() {
        tapes[node]
    } else {
        None
    }
}

/// A node's label, where there is such a node.
pub(crate) fn label_at(labels: &[Vec<u8>], node: usize) -> &[u8]
    ensures { result.now ≡ slice_index_or (map (λ l. l.items) labels.now) node [] }
{
    match labels.get(node) {
        Some(label) => label.as_slice(),
        None => b"",
    }
}

/// A node's share of the time, where it is known.
fn share_of(shares: &[Option<u32>], node: usize) -> Option<u32>
    ensures { result ≡ slice_index_or shares.now node None }
{
    if node < shares.len() {
        shares[node]
    } else {
        None
    }
}

/// How often a node fires.
pub(crate) fn count_of(counts: &[u32], node: usize) -> u32
    ensures { result ≡ slice_index_or counts.now node 0 }
{
    if node < counts.len() { counts[node] } else { 0 }
}
