// How often nodes fire in a round.

ghost use Rattle.std.specs.Prelude.{◌≡◌, ◌+◌, ◌*◌, ◌<◌, ◌^◌, ℕ, All, IfOk, length};
ghost use Rattle.strc_balance.specs.Balance.{count_at};
ghost use Rattle.strc_sched_orders.specs.Firings.{turns_of};
ghost use Rattle.strc_sched_orders.specs.Greedy.{firings_of};
ghost use Rattle.strc_sched_orders.specs.Order.{firing_count};
ghost use Rattle.strc_sched_orders.specs.Peaks.{HasNodes};

use std::alloc::{AllocError, Global};
use strc_sched_orders::unit::Unit;

/// How often each of so many nodes fires in a round's units.
pub fn firing_counts(alloc: Global, nodes: usize, round: &[Unit]) -> Result<Vec<u32>, AllocError>
    requires nodes { All (HasNodes nodes) round.now }
    requires few { (node : ℕ) → firing_count (firings_of round.now) node < 2 ^ 32 }
    ensures { IfOk result (λ counts. count_at counts.items ≡ firing_count (firings_of round.now)) }
{
    let mut counts = Vec::from_elem(alloc, 0, nodes)?;
    add_units(&mut counts, round);
    Ok(counts)
}

/// Adds the firings of units.
fn add_units(counts: &mut [u32], round: &[Unit])
    requires nodes { All (HasNodes (length counts.old)) round.now }
    requires few { (node : ℕ) → count_at counts.old node
        + firing_count (firings_of round.now) node < 2 ^ 32 }
    ensures each { length counts.new ≡ length counts.old }
    ensures counts { (node : ℕ) → count_at counts.new node
        ≡ count_at counts.old node + firing_count (firings_of round.now) node }
{
    for unit in round {
        add_unit(counts, unit);
    }
}

/// Adds the firings of a unit.
fn add_unit(counts: &mut [u32], unit: &Unit)
    requires nodes { HasNodes (length counts.old) unit.now }
    requires few { (node : ℕ) → count_at counts.old node
        + unit.now.turns * firing_count unit.now.nodes.items node < 2 ^ 32 }
    ensures each { length counts.new ≡ length counts.old }
    ensures counts { (node : ℕ) → count_at counts.new node
        ≡ count_at counts.old node + unit.now.turns * firing_count unit.now.nodes.items node }
{
    for node in &unit.nodes {
        add_turns(counts, *node as usize, unit.turns);
    }
}

/// Adds so many firings of a node.
fn add_turns(counts: &mut [u32], node: usize, turns: u32)
    requires node { node < length counts.old }
    requires few { count_at counts.old node + turns < 2 ^ 32 }
    ensures each { length counts.new ≡ length counts.old }
    ensures counts { (other : ℕ) → count_at counts.new other
        ≡ count_at counts.old other + turns_of turns node other }
{
    counts[node] += turns;
}
