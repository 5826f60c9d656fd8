// The boxes of fused units.

ghost use Rattle.std.specs.Prelude.{◌≡◌, ◌++◌, OnOk, flat_map};
ghost use Rattle.strc_cli_pictures.specs.Stages as spec;

use crate::large_numbers::push_number;
use std::alloc::AllocError;
use strc_cli_output::text::push_bytes;
use strc_sched_orders::unit::Unit;

/// Adds the boxes of those units that have one.
pub(crate) fn push_units(text: &mut Vec<u8>, units: &[Unit]) -> Result<(), AllocError>
    ensures { OnOk result (text.new.items ≡ text.old.items ++ spec.unit_boxes units.now) }
{
    for unit in units {
        push_unit(text, unit.turns, &unit.nodes)?;
    }
    Ok(())
}

/// The box of a unit with these nodes, where it has several.
fn push_unit(text: &mut Vec<u8>, turns: u32, nodes: &[u32]) -> Result<(), AllocError>
    ensures { OnOk result (text.new.items ≡ text.old.items ++ spec.unit_box turns nodes.now) }
{
    if nodes.len() < 2 {
        return Ok(());
    }
    push_open(text, nodes[0], turns)?;
    push_rows(text, nodes)?;
    push_bytes(text, b"  }\n")
}

/// The lines that open the box of a unit.
fn push_open(text: &mut Vec<u8>, first: u32, turns: u32) -> Result<(), AllocError>
    ensures { OnOk result (text.new.items ≡ text.old.items ++ spec.unit_open first turns) }
{
    push_bytes(text, b"  subgraph cluster_unit_")?;
    push_number(text, u128::from(first))?;
    push_bytes(text, b" {\n  label=\"")?;
    push_number(text, u128::from(turns))?;
    push_bytes(text, b" times\";\n")
}

/// The nodes that stand in a box.
fn push_rows(text: &mut Vec<u8>, nodes: &[u32]) -> Result<(), AllocError>
    ensures { OnOk result (text.new.items ≡ text.old.items
        ++ flat_map spec.node_row nodes.now) }
{
    for node in nodes {
        push_row(text, *node)?;
    }
    Ok(())
}

/// A node that is written already, in a box more.
fn push_row(text: &mut Vec<u8>, node: u32) -> Result<(), AllocError>
    ensures { OnOk result (text.new.items ≡ text.old.items ++ spec.node_row node) }
{
    push_bytes(text, b"  n")?;
    push_number(text, u128::from(node))?;
    push_bytes(text, b";\n")
}
