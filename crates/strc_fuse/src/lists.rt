// Lists of nodes, a number of times.

ghost use Rattle.std.specs.Prelude.{◌≡◌, ◌++◌, IfOk, OnOk};
ghost use Rattle.strc_elab_dataflow.specs.Fused.{repeated};
ghost use Rattle.strc_fuse.specs.Units.{round_unit};

use std::alloc::{AllocError, Global};
use std::mem;
use strc_sched_orders::unit::Unit;

/// Puts a list so many times in its place; one that stays as it is isn't copied.
pub(crate) fn repeat(alloc: Global, nodes: &mut Vec<u32>, times: u32) -> Result<(), AllocError>
    ensures { OnOk result (nodes.new.items ≡ repeated times nodes.old.items) }
{
    if times == 1 {
        return Ok(());
    }
    let list = mem::replace(nodes, Vec::new(alloc));
    append(nodes, &list, times)
}

/// Puts another list behind a list so many times.
pub(crate) fn append(list: &mut Vec<u32>, nodes: &[u32], times: u32) -> Result<(), AllocError>
    ensures { OnOk result (list.new.items ≡ list.old.items ++ repeated times nodes.now) }
{
    for turn in 0..times {
        list.extend_from_slice(nodes)?;
    }
    Ok(())
}

/// An equal unit.
pub(crate) fn copy_of(alloc: Global, unit: &Unit) -> Result<Unit, AllocError>
    ensures { IfOk result (λ copy. round_unit copy ≡ round_unit unit.now) }
{
    Ok(Unit {
        turns: unit.turns,
        nodes: Vec::from_slice(alloc, &unit.nodes)?,
    })
}
