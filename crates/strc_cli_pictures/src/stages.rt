// The boxes of stages, with the nodes and the fused units that they fire.

ghost use Rattle.std.specs.Prelude.{◌≡◌, ◌≤◌, ◌++◌, OnOk, length};
ghost use Rattle.strc_cli_pictures.specs.Lists.{nodes_of};
ghost use Rattle.strc_cli_pictures.specs.Stages as spec;

use crate::large_numbers::push_number;
use crate::nodes::{Counted, push_node};
use crate::units::push_units;
use std::alloc::AllocError;
use strc_cli_output::text::push_bytes;
use strc_sched_orders::unit::Unit;

/// Adds the boxes of stages with these bounds, which fire a round's units.
pub(crate) fn push_bounded(
    text: &mut Vec<u8>,
    counted: Counted<'_>,
    round: &[Unit],
    bounds: &[usize],
) -> Result<(), AllocError>
    ensures { OnOk result (text.new.items ≡ text.old.items
        ++ spec.bounded_boxes (nodes_of counted.entry) round.now bounds.now) }
{
    match bounds.split_first() {
        Some((first, ends)) => push_stages(text, counted, *first, round, ends),
        None => Ok(()),
    }
}

/// Adds the boxes of stages with these ends, of which the first begins with this node.
fn push_stages(
    text: &mut Vec<u8>,
    counted: Counted<'_>,
    first: usize,
    round: &[Unit],
    ends: &[usize],
) -> Result<(), AllocError>
    ensures { OnOk result (text.new.items ≡ text.old.items
        ++ spec.stage_boxes (nodes_of counted.entry) 0 first round.now ends.now) }
{
    let mut first = first;
    let mut units = round;
    for stage in 0..ends.len() {
        let end = ends[stage];
        let (own, later) = units.split_at(unit_count(units, end));
        push_stage(text, counted, stage, first, end, own)?;
        first = end;
        units = later;
    }
    Ok(())
}

/// How many of these units are of the stage with this end.
fn unit_count(units: &[Unit], end: usize) -> usize
    ensures is { result ≡ spec.unit_count end units.now }
    ensures within { result ≤ length units.now }
{
    let mut count = 0;
    while count < units.len() && begins_below(&units[count].nodes, end) {
        count += 1;
    }
    count
}

/// Whether the first of a unit's nodes is below a bound.
fn begins_below(nodes: &[u32], bound: usize) -> bool
    ensures { result ≡ spec.begins_below bound nodes.now }
{
    match nodes.first() {
        Some(first) => (*first as usize) < bound,
        None => true,
    }
}

/// The box of a stage: the nodes that it fires, and its units.
fn push_stage(
    text: &mut Vec<u8>,
    counted: Counted<'_>,
    stage: usize,
    first: usize,
    end: usize,
    units: &[Unit],
) -> Result<(), AllocError>
    ensures { OnOk result (text.new.items ≡ text.old.items
        ++ spec.stage_box (nodes_of counted.entry) stage first end units.now) }
{
    push_open(text, stage)?;
    push_nodes(text, counted, first, end)?;
    push_units(text, units)?;
    push_bytes(text, b"  }\n")
}

/// The lines that open the box of a stage.
fn push_open(text: &mut Vec<u8>, stage: usize) -> Result<(), AllocError>
    ensures { OnOk result (text.new.items ≡ text.old.items ++ spec.stage_open stage) }
{
    push_bytes(text, b"  subgraph cluster_stage_")?;
    push_number(text, stage as u128)?;
    push_bytes(text, b" {\n  label=\"stage ")?;
    push_number(text, stage as u128)?;
    push_bytes(text, b"\";\n")
}

/// The lines of the nodes from one to before another.
fn push_nodes(
    text: &mut Vec<u8>,
    counted: Counted<'_>,
    first: usize,
    end: usize,
) -> Result<(), AllocError>
    ensures { OnOk result (text.new.items ≡ text.old.items
        ++ spec.node_lines (nodes_of counted.entry) first end) }
{
    for node in first..end {
        push_node(text, counted, node)?;
    }
    Ok(())
}

/// How many rounds go at a time, as a label of the whole picture.
pub(crate) fn push_batch(text: &mut Vec<u8>, batch: u32) -> Result<(), AllocError>
    ensures { OnOk result (text.new.items ≡ text.old.items ++ spec.batch_line batch) }
{
    push_bytes(text, b"  label=\"")?;
    push_bytes(text, b"rounds at a time: at most ")?;
    push_number(text, u128::from(batch))?;
    push_bytes(text, b"\";\n")
}
