// What copies of nodes are copies of, and units, copied.

ghost use Rattle.std.specs.Prelude.{◌≡◌, IfOk};
ghost use Rattle.strc_fuse.specs.Units.{round_unit, round_units};
ghost use Rattle.strc_elab_graph.specs.NodeView.{node_view, copied_view};
ghost use Rattle.strc_fiss.specs.Splitting.{copied};

use std::alloc::{AllocError, Global};
use strc_elab_graph::graph::{Copied, Node};
use strc_lex_names::memory::NoMemory;
use strc_sched_orders::unit::Unit;

/// What a copy of a node is a copy of.
pub(crate) fn copied_of(alloc: Global, node: &Node) -> Result<Copied, NoMemory>
    ensures { IfOk result (λ copy. copied_view copy ≡ copied (node_view node.now)) }
{
    match node {
        Node::Filter(instance) => Ok(Copied::Filter(instance.copy(alloc)?)),
        Node::Identity
        | Node::FileReader(_)
        | Node::FileWriter(_)
        | Node::Splitter(_)
        | Node::Joiner(_)
        | Node::Scatter(_)
        | Node::Copy(_, _)
        | Node::Gather(_) => Ok(Copied::Identity),
    }
}

/// Equal units.
pub(crate) fn copy_units(alloc: Global, units: &[Unit]) -> Result<Vec<Unit>, AllocError>
    ensures { IfOk result (λ copies. round_units copies.items ≡ round_units units.now) }
{
    let mut copies = Vec::with_capacity(alloc, units.len())?;
    for unit in units {
        copies.push(copy_unit(alloc, unit)?)?;
    }
    Ok(copies)
}

/// An equal unit.
fn copy_unit(alloc: Global, unit: &Unit) -> Result<Unit, AllocError>
    ensures { IfOk result (λ copy. round_unit copy ≡ round_unit unit.now) }
{
    Ok(Unit {
        turns: unit.turns,
        nodes: unit.nodes.to_vec(alloc)?,
    })
}
