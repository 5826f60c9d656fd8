// The units of a stage.

ghost use Rattle.std.specs.Prelude.{◌≡◌, IfOk, slice_index};
ghost use Rattle.strc_sched_rings.specs.Units.{unit_views};
ghost use Rattle.strc_stage_plan.specs.Cuts as spec;

use std::alloc::{AllocError, Global};
use strc_sched_orders::unit::Unit;
use strc_sched_rings::range::is_within;
use strc_sched_rings::units::copy_unit;

/// Copies of the units whose node is one of those from `first` up to `next`.
pub(crate) fn units_within(
    alloc: Global,
    units: &[Unit],
    first: usize,
    next: usize,
) -> Result<Vec<Unit>, AllocError>
    ensures { IfOk result (λ within. unit_views within.items
        ≡ unit_views (spec.units_within first next units.now)) }
{
    let mut within = Vec::new(alloc);
    for number in 0..units.len() {
        let unit = &units[number];
        if is_within(first, next, node_of(unit)) {
            within.push(copy_unit(alloc, unit)?)?;
        }
    }
    Ok(within)
}

/// The first node of a unit.
fn node_of(unit: &Unit) -> usize
    ensures { result ≡ slice_index unit.now.nodes.items 0 }
{
    if unit.nodes.len() > 0 {
        unit.nodes[0] as usize
    } else {
        0
    }
}
