// Units of an order, copied.

ghost use Rattle.std.specs.Prelude.{◌≡◌, IfOk};
ghost use Rattle.strc_sched_orders.specs.Greedy.{firings_of};
ghost use Rattle.strc_sched_rings.specs.Units.{unit_view, unit_views};

use std::alloc::{AllocError, Global};
use strc_sched_orders::unit::Unit;

/// Equal units.
pub fn copy_units(alloc: Global, units: &[Unit]) -> Result<Vec<Unit>, AllocError>
    ensures units { IfOk result (λ copies. unit_views copies.items ≡ unit_views units.now) }
    ensures firings { IfOk result (λ copies. firings_of copies.items ≡ firings_of units.now) }
{
    let mut copies = Vec::with_capacity(alloc, units.len())?;
    for unit in units {
        copies.push(copy_unit(alloc, unit)?)?;
    }
    Ok(copies)
}

/// An equal unit.
pub fn copy_unit(alloc: Global, unit: &Unit) -> Result<Unit, AllocError>
    ensures { IfOk result (λ copy. unit_view copy ≡ unit_view unit.now) }
{
    Ok(Unit {
        turns: unit.turns,
        nodes: unit.nodes.to_vec(alloc)?,
    })
}
