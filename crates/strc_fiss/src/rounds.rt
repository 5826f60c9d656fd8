// The units of a round after fission.

ghost use Rattle.std.specs.Prelude.{◌≡◌, ℕ, suc, ◌+◌, ◌<◌, ◌^◌, ◌++◌, ◌∷◌, [], All, IfOk, IfSome};
ghost use Rattle.std.specs.Prelude.{IfNone, OnOk, true, length, map, slice_index};
ghost use Rattle.strc_fuse.specs.Units.{round_unit, round_units};
ghost use Rattle.strc_sched_orders.specs.Peaks.{HasNodes};
ghost use Rattle.strc_elab_dataflow.specs.Pieces as pieces;
ghost use Rattle.strc_fiss.specs.Numbers.{up_to, share_at, is_dealt, base};
ghost use Rattle.strc_fiss.specs.Units as spec;

use std::alloc::{AllocError, Global};
use strc_elab_graph::graph::Fission;
use strc_sched_orders::unit::Unit;

/// The units of a round after fission.
pub(crate) fn split_round(
    alloc: Global,
    round: &[Unit],
    shares: &[Fission],
    bases: &[u32],
) -> Result<Vec<Unit>, AllocError>
    requires nodes { All (HasNodes (length shares.now)) round.now }
    requires bases { bases.now ≡ up_to (base (share_at shares.now)) (suc (length shares.now)) }
    requires within { base (share_at shares.now) (length shares.now) < 2 ^ 32 }
    ensures { IfOk result (λ units. round_units units.items
        ≡ spec.split_units (share_at shares.now) (round_units round.now)) }
{
    let mut units = Vec::with_capacity(alloc, round.len())?;
    for unit in round {
        push_split(alloc, &mut units, unit, shares, bases)?;
    }
    Ok(units)
}

/// Adds a unit after fission.
fn push_split(
    alloc: Global,
    units: &mut Vec<Unit>,
    unit: &Unit,
    shares: &[Fission],
    bases: &[u32],
) -> Result<(), AllocError>
    requires nodes { HasNodes (length shares.now) unit.now }
    requires bases { bases.now ≡ up_to (base (share_at shares.now)) (suc (length shares.now)) }
    requires within { base (share_at shares.now) (length shares.now) < 2 ^ 32 }
    ensures { OnOk result (round_units units.new.items ≡ round_units units.old.items
        ++ spec.split_unit (share_at shares.now) (round_unit unit.now)) }
{
    match whole_node(unit, shares) {
        Some(node) => push_parts(alloc, units, bases[node], shares[node]),
        None => {
            units.push(renamed_unit(alloc, unit, bases)?)?;
            Ok(())
        }
    }
}

/// The node whose firings in a round a unit is, where that is split.
fn whole_node(unit: &Unit, shares: &[Fission]) -> Option<usize>
    requires { HasNodes (length shares.now) unit.now }
    ensures there { IfSome result (λ node. node < length shares.now) }
    ensures split { IfSome result (λ node. is_dealt (share_at shares.now node) ≡ true) }
    ensures parts { IfSome result (λ node. spec.split_unit (share_at shares.now)
        (round_unit unit.now) ≡ spec.units_of_parts (share_at shares.now) node) }
    ensures none { IfNone result (spec.split_unit (share_at shares.now) (round_unit unit.now)
        ≡ spec.renamed_unit (share_at shares.now) (round_unit unit.now) ∷ []) }
{
    if unit.nodes.len() != 1 {
        return None;
    }
    let node = unit.nodes[0] as usize;
    if are_all(unit.turns, shares[node]) {
        Some(node)
    } else {
        None
    }
}

/// Whether so many firings are all of a node that is split.
fn are_all(turns: u32, share: Fission) -> bool
    ensures { result ≡ spec.are_all turns share }
{
    share.ways > 1 && u64::from(turns) == u64::from(share.ways) * u64::from(share.firings)
}

/// Adds the units of a node's parts, of which the first has this number.
fn push_parts(
    alloc: Global,
    units: &mut Vec<Unit>,
    number: u32,
    share: Fission,
) -> Result<(), AllocError>
    requires { number + suc share.ways < 2 ^ 32 }
    ensures { OnOk result (round_units units.new.items ≡ round_units units.old.items
        ++ spec.part_units number share) }
{
    units.push(unit_of(alloc, 1, number)?)?;
    push_copies(alloc, units, number, share)?;
    units.push(unit_of(alloc, 1, number + (share.ways + 1))?)?;
    Ok(())
}

/// Adds the units of a node's copies.
fn push_copies(
    alloc: Global,
    units: &mut Vec<Unit>,
    number: u32,
    share: Fission,
) -> Result<(), AllocError>
    requires { number + suc share.ways < 2 ^ 32 }
    ensures { OnOk result (round_units units.new.items ≡ round_units units.old.items
        ++ up_to (λ copy. pieces.unit_of share.firings (number + suc copy)) share.ways) }
{
    for copy in 0..share.ways {
        units.push(copy_unit(alloc, number, share, copy)?)?;
    }
    Ok(())
}

/// The unit of a copy.
fn copy_unit(alloc: Global, number: u32, share: Fission, copy: u32) -> Result<Unit, AllocError>
    requires { number + suc copy < 2 ^ 32 }
    ensures { IfOk result (λ unit. round_unit unit
        ≡ pieces.unit_of share.firings (number + suc copy)) }
{
    unit_of(alloc, share.firings, number + (copy + 1))
}

/// One node, so many times.
fn unit_of(alloc: Global, turns: u32, node: u32) -> Result<Unit, AllocError>
    ensures { IfOk result (λ unit. round_unit unit ≡ pieces.unit_of turns node) }
{
    Ok(Unit {
        turns,
        nodes: Vec::from_elem(alloc, node, 1)?,
    })
}

/// A unit with the new numbers of its nodes.
fn renamed_unit(alloc: Global, unit: &Unit, bases: &[u32]) -> Result<Unit, AllocError>
    requires { HasNodes (length bases.now) unit.now }
    ensures { IfOk result (λ copy. round_unit copy ≡ record
        { turns = unit.now.turns; nodes = map (slice_index bases.now) unit.now.nodes.items }) }
{
    Ok(Unit {
        turns: unit.turns,
        nodes: renamed_nodes(alloc, &unit.nodes, bases)?,
    })
}

/// Nodes by their new numbers.
fn renamed_nodes(alloc: Global, nodes: &[u32], bases: &[u32]) -> Result<Vec<u32>, AllocError>
    requires { All (λ node. node < length bases.now) nodes.now }
    ensures { IfOk result (λ renamed. renamed.items ≡ map (slice_index bases.now) nodes.now) }
{
    let mut renamed = Vec::with_capacity(alloc, nodes.len())?;
    for node in nodes {
        renamed.push(bases[*node as usize])?;
    }
    Ok(renamed)
}
