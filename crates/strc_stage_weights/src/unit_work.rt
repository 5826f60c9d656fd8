// The work of nodes in a round, by its units.

ghost use Rattle.std.specs.Prelude.{◌≡◌, ℕ, ◌+◌, ◌*◌, ◌<◌, ◌≤◌, min, All, IfOk, length};
ghost use Rattle.std.specs.Prelude.{slice_index};
ghost use Rattle.strc_sched_orders.specs.Firings.{turns_of};
ghost use Rattle.strc_sched_orders.specs.Greedy.{firings_of};
ghost use Rattle.strc_sched_orders.specs.Order.{firing_count};
ghost use Rattle.strc_sched_orders.specs.Peaks.{HasNodes};
ghost use Rattle.strc_stage_weights.specs.RoundWork as spec;

use std::alloc::{AllocError, Global};
use strc_sched_orders::unit::Unit;

/// From here on the work of a node in a round is saturated.
pub const ROUND_WORK_LIMIT: u64 = 1_000_000_000_000_000;

/// The work of each node in a round of these units, where a firing of each has so much.
pub(crate) fn works_of_round(
    alloc: Global,
    firings: &[u32],
    round: &[Unit],
) -> Result<Vec<u64>, AllocError>
    requires { All (HasNodes (length firings.now)) round.now }
    ensures { IfOk result (λ works. works.items
        ≡ spec.round_works firings.now (firings_of round.now)) }
{
    let mut works = Vec::from_elem(alloc, 0, firings.len())?;
    add_units(&mut works, firings, round);
    Ok(works)
}

/// Adds the work of units.
fn add_units(works: &mut [u64], firings: &[u32], round: &[Unit])
    requires each { length works.old ≡ length firings.now }
    requires nodes { All (HasNodes (length works.old)) round.now }
    requires within { (node : ℕ) → slice_index works.old node ≤ ROUND_WORK_LIMIT }
    ensures each { length works.new ≡ length works.old }
    ensures works { (node : ℕ) → slice_index works.new node
        ≡ min (slice_index works.old node
        + firing_count (firings_of round.now) node * slice_index firings.now node)
        ROUND_WORK_LIMIT }
{
    for unit in round {
        add_unit(works, firings, unit);
    }
}

/// Adds the work of a unit.
fn add_unit(works: &mut [u64], firings: &[u32], unit: &Unit)
    requires each { length works.old ≡ length firings.now }
    requires nodes { HasNodes (length works.old) unit.now }
    requires within { (node : ℕ) → slice_index works.old node ≤ ROUND_WORK_LIMIT }
    ensures each { length works.new ≡ length works.old }
    ensures works { (node : ℕ) → slice_index works.new node
        ≡ min (slice_index works.old node
        + unit.now.turns * firing_count unit.now.nodes.items node * slice_index firings.now node)
        ROUND_WORK_LIMIT }
{
    for node in &unit.nodes {
        add_turns(works, firings, *node as usize, unit.turns);
    }
}

/// Adds the work of so many firings of a node.
fn add_turns(works: &mut [u64], firings: &[u32], node: usize, turns: u32)
    requires each { length works.old ≡ length firings.now }
    requires node { node < length works.old }
    requires within { (other : ℕ) → slice_index works.old other ≤ ROUND_WORK_LIMIT }
    ensures each { length works.new ≡ length works.old }
    ensures works { (other : ℕ) → slice_index works.new other
        ≡ min (slice_index works.old other
        + turns_of turns node other * slice_index firings.now other) ROUND_WORK_LIMIT }
{
    works[node] = work_with(works[node], turns, firings[node]);
}

/// Some work and that of so many firings, saturated.
fn work_with(work: u64, turns: u32, firing: u32) -> u64
    ensures { result ≡ min (work + turns * firing) ROUND_WORK_LIMIT }
{
    let more = u64::from(turns) * u64::from(firing);
    work.saturating_add(more).min(ROUND_WORK_LIMIT)
}
