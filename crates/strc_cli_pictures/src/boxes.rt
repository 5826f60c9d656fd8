// The boxes of composite streams, with the lines of their nodes.

ghost use Rattle.std.specs.Prelude.{◌≡◌, ◌++◌, OnOk, IfOk, None, drop, slice_index_or, take};
ghost use Rattle.strc_cli_pictures.specs.Boxes as spec;
ghost use Rattle.strc_cli_pictures.specs.Lists.{nodes_of};

use crate::nodes::{Counted, push_end, push_node};
use std::alloc::{AllocError, Global};
use strc_cli_output::text::Piece::{Bytes, Number};
use strc_cli_output::text::{push_bytes, push_pieces};
use strc_elab_paths::outline::Part;

/// The next node and the next box, by their numbers, and in how many composite streams they are.
#[derive(Clone, Copy)]
struct Position {
    node: usize,
    number: usize,
    level: usize,
}

impl Position {
    /// The position after a part.
    fn after(self, part: &Part) -> Position
        ensures { result ≡ spec.after self part.now }
    {
        match part {
            Part::Node(_) => Position {
                node: self.node.saturating_add(1),
                number: self.number,
                level: self.level,
            },
            Part::Open(_) => Position {
                node: self.node,
                number: self.number.saturating_add(1),
                level: self.level.saturating_add(1),
            },
            Part::Close => Position {
                node: self.node,
                number: self.number,
                level: self.level.saturating_sub(1),
            },
        }
    }
}

/// Adds the lines of parts: of nodes, and of the boxes of composite streams. One in so many others
/// is a single box, in place of its nodes.
pub(crate) fn push_parts(
    text: &mut Vec<u8>,
    counted: Counted<'_>,
    depth: usize,
    parts: &[Part],
) -> Result<(), AllocError>
    ensures { OnOk result (text.new.items ≡ text.old.items
        ++ spec.part_lines (nodes_of counted.entry) depth spec.beginning parts.now) }
{
    let mut position = Position {
        node: 0,
        number: 0,
        level: 0,
    };
    let mut rest = parts;
    while let Some((part, later)) = rest.split_first() {
        push_part(text, counted, depth, position, part, later)?;
        position = position.after(part);
        rest = later;
    }
    Ok(())
}

/// The lines of a part, before those parts.
fn push_part(
    text: &mut Vec<u8>,
    counted: Counted<'_>,
    depth: usize,
    position: Position,
    part: &Part,
    later: &[Part],
) -> Result<(), AllocError>
    ensures { OnOk result (text.new.items ≡ text.old.items
        ++ spec.lines_of (nodes_of counted.entry) depth position part.now later.now) }
{
    match part {
        Part::Node(_) if position.level <= depth => push_node(text, counted, position.node),
        Part::Open(label) if position.level < depth => {
            push_open(text, position.number, label.as_bytes())
        }
        Part::Open(label) if position.level == depth => {
            let count = count_within(later);
            push_folded(text, counted, label.as_bytes(), position.node, count)
        }
        Part::Close if position.level <= depth => push_bytes(text, b"  }\n"),
        _ => Ok(()),
    }
}

/// The lines that open the box of a composite stream.
fn push_open(text: &mut Vec<u8>, number: usize, label: &[u8]) -> Result<(), AllocError>
    ensures { OnOk result (text.new.items ≡ text.old.items ++ spec.open_lines number label.now) }
{
    push_pieces(
        text,
        &[
            Bytes(b"  subgraph cluster_"),
            Number(number as u64),
            Bytes(b" {\n  label=\""),
            Bytes(label),
            Bytes(b"\";\n"),
        ],
    )
}

/// The line of a composite stream that is a single box: its label, and which nodes are in it.
fn push_folded(
    text: &mut Vec<u8>,
    counted: Counted<'_>,
    label: &[u8],
    first: usize,
    count: usize,
) -> Result<(), AllocError>
    ensures { OnOk result (text.new.items ≡ text.old.items
        ++ spec.folded_line (nodes_of counted.entry) label.now first count) }
{
    push_pieces(
        text,
        &[
            Bytes(b"  n"),
            Number(first as u64),
            Bytes(b" [label=\""),
            Bytes(label),
            Bytes(b"\\nnodes "),
            Number(first as u64),
            Bytes(b" to "),
            Number(first.saturating_add(count).saturating_sub(1) as u64),
        ],
    )?;
    push_end(
        text,
        b", shape=component",
        share_within(counted.shares, first, count),
    )
}

/// How many nodes are in the composite stream whose parts these are.
fn count_within(parts: &[Part]) -> usize
    ensures { result ≡ spec.count_within 0 parts.now }
{
    let mut count: usize = 0;
    let mut level: usize = 0;
    for part in parts {
        match part {
            Part::Node(_) => count = count.saturating_add(1),
            Part::Open(_) => level = level.saturating_add(1),
            Part::Close if level == 0 => return count,
            Part::Close => level -= 1,
        }
    }
    count
}

/// The shares of the time of so many nodes together, where any is known, up to all of it.
fn share_within(shares: &[Option<u32>], first: usize, count: usize) -> Option<u32>
    ensures { result ≡ spec.share_within shares.now first count }
{
    sum_of_shares(run_of(shares, first, count))
}

/// So many shares from one on, or as many as there are.
fn run_of(shares: &[Option<u32>], first: usize, count: usize) -> &[Option<u32>]
    ensures { result.now ≡ take count (drop first shares.now) }
{
    let later = &shares[first.min(shares.len())..];
    &later[..count.min(later.len())]
}

/// All of these shares together.
fn sum_of_shares(shares: &[Option<u32>]) -> Option<u32>
    ensures { result ≡ spec.with_shares None shares.now }
{
    let mut sum = None;
    for share in shares {
        sum = with_share(sum, *share);
    }
    sum
}

/// A sum of shares with one more.
fn with_share(sum: Option<u32>, more: Option<u32>) -> Option<u32>
    ensures { result ≡ spec.with_share sum more }
{
    match (sum, more) {
        (Some(sum), Some(more)) => Some(sum.saturating_add(more).min(1000)),
        (None, Some(share)) => Some(share.min(1000)),
        (sum, None) => sum,
    }
}

/// For each node of an outline the node whose line stands for it: its own, or the first one of the
/// composite stream that is drawn as a single box.
pub(crate) fn shown_nodes(
    alloc: Global,
    depth: usize,
    parts: &[Part],
) -> Result<Vec<usize>, AllocError>
    ensures { IfOk result (λ shown. shown.items
        ≡ spec.shown_nodes depth spec.beginning 0 parts.now) }
{
    let mut shown = Vec::new(alloc);
    let mut first: usize = 0;
    let mut position = Position {
        node: 0,
        number: 0,
        level: 0,
    };
    for part in parts {
        push_shown(&mut shown, depth, position, first, part)?;
        first = first_after(depth, position, first, part);
        position = position.after(part);
    }
    Ok(shown)
}

/// Adds the node whose line stands for that of a part, where it is a node.
fn push_shown(
    shown: &mut Vec<usize>,
    depth: usize,
    position: Position,
    first: usize,
    part: &Part,
) -> Result<(), AllocError>
    ensures { OnOk result (shown.new.items ≡ shown.old.items
        ++ spec.shown_of depth position first part.now) }
{
    match part {
        Part::Node(_) => {
            shown.push(if position.level <= depth {
                position.node
            } else {
                first
            })?;
            Ok(())
        }
        _ => Ok(()),
    }
}

/// The node that stands for the next ones in a single box, after a part.
fn first_after(depth: usize, position: Position, first: usize, part: &Part) -> usize
    ensures { result ≡ spec.first_after depth position first part.now }
{
    match part {
        Part::Open(_) if position.level == depth => position.node,
        _ => first,
    }
}

/// The node whose line stands for one; where it isn't known, it is its own.
pub(crate) fn shown_at(shown: &[usize], node: u32) -> usize
    ensures { result ≡ slice_index_or shown.now node node }
{
    let node = node as usize;
    if node < shown.len() {
        shown[node]
    } else {
        node
    }
}
