// The units of a round, fused from left to right.

ghost use Rattle.std.specs.Prelude.{◌≡◌, All, IfOk, IfSome, IfNone, OnOk, true, length};
ghost use Rattle.strc_elab_graph.specs.NodeView.{graph_view};
ghost use Rattle.strc_sched_orders.specs.Peaks.{HasNodes};
ghost use Rattle.strc_elab_dataflow.specs.FusedUnits.{AreFused, IsFused, joined_unit};
ghost use Rattle.strc_fuse.specs.Steps.{AreShares, AreTooLong, IsMarked, GoesOn};
ghost use Rattle.strc_fuse.specs.Units.{is_free, round_unit, round_units};

use crate::freedom::are_free;
use crate::lists::{append, copy_of, repeat};
use crate::unit_join::{Shares, joint};
use std::alloc::{AllocError, Global};
use std::mem;
use strc_elab_graph::graph::Graph;
use strc_sched_orders::unit::Unit;

/// The last of the units so far, to which more may be joined, and whether all its nodes may be
/// fused.
pub(crate) struct LastUnit {
    pub unit: Unit,
    pub is_free: bool,
}

impl Drop for LastUnit {
    fn drop(self) {
        let LastUnit {
            unit: _,
            is_free: _,
        } = self;
    }
}

impl LastUnit {
    /// The unit alone.
    fn into_unit(self) -> Unit
        ensures { result ≡ self.unit }
    {
        let LastUnit { unit, is_free: _ } = self;
        unit
    }
}

/// The units of a round after fusion, with lists of at most so many entries.
pub(crate) fn fused_units(
    alloc: Global,
    graph: &Graph,
    round: &[Unit],
    threshold: u32,
) -> Result<Vec<Unit>, AllocError>
    requires { All (HasNodes (length graph.now.nodes)) round.now }
    ensures { IfOk result (λ fused. AreFused (is_free (graph_view graph.now)) threshold
        (round_units round.now) (round_units fused.items)) }
{
    match round.split_first() {
        Some((first, later)) => fused_from(alloc, graph, first, later, threshold),
        None => Ok(Vec::new(alloc)),
    }
}

/// The units after fusion of a first unit and those after it.
fn fused_from(
    alloc: Global,
    graph: &Graph,
    first: &Unit,
    later: &[Unit],
    threshold: u32,
) -> Result<Vec<Unit>, AllocError>
    requires first { HasNodes (length graph.now.nodes) first.now }
    requires later { All (HasNodes (length graph.now.nodes)) later.now }
    ensures { IfOk result (λ fused. IsFused (is_free (graph_view graph.now)) threshold
        (round_unit first.now) (round_units later.now) (round_units fused.items)) }
{
    let mut fused = Vec::new(alloc);
    let mut last = last_unit(alloc, graph, first)?;
    for next in later {
        take_unit(alloc, graph, &mut fused, &mut last, next, threshold)?;
    }
    fused.push(last.into_unit())?;
    Ok(fused)
}

/// A unit of the round as the last one.
fn last_unit(alloc: Global, graph: &Graph, unit: &Unit) -> Result<LastUnit, AllocError>
    requires { HasNodes (length graph.now.nodes) unit.now }
    ensures unit { IfOk result (λ last. round_unit last.unit ≡ round_unit unit.now) }
    ensures free { IfOk result (IsMarked (is_free (graph_view graph.now))) }
{
    Ok(LastUnit {
        is_free: are_free(graph, &unit.nodes),
        unit: copy_of(alloc, unit)?,
    })
}

/// Takes one unit more of the round: it joins the last one, or comes in its place, and that goes
/// behind those before it.
fn take_unit(
    alloc: Global,
    graph: &Graph,
    fused: &mut Vec<Unit>,
    last: &mut LastUnit,
    next: &Unit,
    threshold: u32,
) -> Result<(), AllocError>
    requires next { HasNodes (length graph.now.nodes) next.now }
    requires free { IsMarked (is_free (graph_view graph.now)) last.old }
    ensures free { OnOk result (IsMarked (is_free (graph_view graph.now)) last.new) }
    ensures goes_on { OnOk result (GoesOn (is_free (graph_view graph.now)) threshold
        (round_units fused.old.items) (round_unit last.old.unit) (round_unit next.now)
        (round_units fused.new.items) (round_unit last.new.unit)) }
{
    let next_is_free = are_free(graph, &next.nodes);
    match shares_with(last, next, next_is_free, threshold) {
        Some(shares) => join(alloc, &mut last.unit, next, shares),
        None => {
            let unit = mem::replace(&mut last.unit, copy_of(alloc, next)?);
            last.is_free = next_is_free;
            fused.push(unit)?;
            Ok(())
        }
    }
}

/// How the last unit and the next one fire by turns; nothing where they don't join.
fn shares_with(last: &LastUnit, next: &Unit, next_is_free: bool, threshold: u32) -> Option<Shares>
    ensures free { IfSome result (λ shares. (last.now.is_free ≡ true) × (next_is_free ≡ true)) }
    ensures shares { IfSome result (AreShares threshold (round_unit last.now.unit)
        (round_unit next.now)) }
    ensures none { IfNone result (last.now.is_free ≡ true → next_is_free ≡ true
        → AreTooLong threshold (round_unit last.now.unit) (round_unit next.now)) }
{
    if last.is_free && next_is_free {
        joint(&last.unit, next, threshold)
    } else {
        None
    }
}

/// Joins a unit to the one before it.
fn join(alloc: Global, unit: &mut Unit, next: &Unit, shares: Shares) -> Result<(), AllocError>
    ensures { OnOk result (round_unit unit.new ≡ joined_unit shares.turns shares.first
        shares.second (round_unit unit.old) (round_unit next.now)) }
{
    repeat(alloc, &mut unit.nodes, shares.first)?;
    append(&mut unit.nodes, &next.nodes, shares.second)?;
    unit.turns = shares.turns;
    Ok(())
}
