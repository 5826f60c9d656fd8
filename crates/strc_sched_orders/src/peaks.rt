// The greatest numbers of items on channels while units fire.

ghost use Rattle.std.specs.Prelude.{◌≡◌, ℕ, ◌∷◌, [], ◌+◌, ◌<◌, ◌≤◌, ◌^◌, length, All};
ghost use Rattle.std.specs.Prelude.{slice_get, slice_index, slice_set, Some, Contains};
ghost use Rattle.std.specs.Prelude.{IfSome, IfNone, OnSome};
ghost use Rattle.strc_balance.specs.Balance.{count_at};
ghost use Rattle.strc_startup.specs.Startup as startup;
ghost use Rattle.strc_startup.specs.Waiting.{HasEnds, IsBounded};
ghost use Rattle.strc_startup.specs.declared.channel_rates.ChannelRates.{ChannelRates};
ghost use Rattle.strc_sched_orders.specs.Firings as spec;
ghost use Rattle.strc_sched_orders.specs.Firings.{fired};
ghost use Rattle.strc_sched_orders.specs.Greedy.{firings_of};
ghost use Rattle.strc_sched_orders.specs.Network.{size_of};
ghost use Rattle.strc_sched_orders.specs.Order.{after, repeated};
ghost use Rattle.strc_sched_orders.specs.Peaks.{AreBelow, AreTouched, HasNodes, Raises};
ghost use Rattle.strc_sched_orders.specs.Progress.{count_bound, PassesBound};

use crate::network::Network;
use crate::unit::Unit;
use strc_startup::channel_rates::ChannelRates;

/// How often nodes have fired after units, and the greatest numbers of items then.
///
/// None where a count, or the number of items that have come on a channel or were popped from it,
/// doesn't fit into 128 bits.
pub(crate) fn after_units(
    network: &Network,
    units: &[Unit],
    counts: Vec<u128>,
    peaks: Vec<u128>,
) -> Option<(Vec<u128>, Vec<u128>)>
    requires each { length counts.items ≡ size_of network.now }
    requires peaks { length peaks.items ≡ length network.now.channels }
    requires nodes { All (HasNodes (size_of network.now)) units.now }
    requires known { AreBelow network.now.channels (count_at counts.items) peaks.items }
    ensures raises { IfSome result (λ later. Raises network.now.channels (firings_of units.now)
        counts.items peaks.items later.0.items later.1.items) }
    ensures none { IfNone result (PassesBound
        (after (count_at counts.items) (firings_of units.now))) }
{
    let mut now = counts;
    let mut raised = peaks;
    raise_units(network, units, &mut now, &mut raised)?;
    Some((now, raised))
}

/// Raises the peaks, the greatest numbers of items, to those while units fire, and counts their
/// firings.
fn raise_units(
    network: &Network,
    units: &[Unit],
    counts: &mut [u128],
    peaks: &mut [u128],
) -> Option<()>
    requires each { length counts.old ≡ size_of network.now }
    requires peaks { length peaks.old ≡ length network.now.channels }
    requires nodes { All (HasNodes (size_of network.now)) units.now }
    requires known { AreBelow network.now.channels (count_at counts.old) peaks.old }
    ensures raises { OnSome result (Raises network.now.channels (firings_of units.now)
        counts.old peaks.old counts.new peaks.new) }
    ensures none { IfNone result (PassesBound
        (after (count_at counts.old) (firings_of units.now))) }
{
    for unit in units {
        raise_unit(network, unit, counts, peaks)?;
    }
    Some(())
}

/// Raises the peaks to those while one unit fires, and counts its firings. One of a single node
/// fires at once, however many its iterations are.
fn raise_unit(network: &Network, unit: &Unit, counts: &mut [u128], peaks: &mut [u128]) -> Option<()>
    requires each { length counts.old ≡ size_of network.now }
    requires peaks { length peaks.old ≡ length network.now.channels }
    requires nodes { HasNodes (size_of network.now) unit.now }
    requires known { AreBelow network.now.channels (count_at counts.old) peaks.old }
    ensures raises { OnSome result (Raises network.now.channels
        (repeated unit.now.turns unit.now.nodes.items)
        counts.old peaks.old counts.new peaks.new) }
    ensures none { IfNone result (PassesBound (after (count_at counts.old)
        (repeated unit.now.turns unit.now.nodes.items))) }
{
    if unit.turns > 0 && unit.nodes.len() == 1 {
        raise_by_turns(network, unit.nodes[0] as usize, unit.turns, counts, peaks)
    } else {
        raise_by_passes(network, unit.turns, &unit.nodes, counts, peaks)
    }
}

/// Raises the peaks to those while a list of nodes fires so many times, one firing after another.
fn raise_by_passes(
    network: &Network,
    turns: u32,
    nodes: &[u32],
    counts: &mut [u128],
    peaks: &mut [u128],
) -> Option<()>
    requires each { length counts.old ≡ size_of network.now }
    requires peaks { length peaks.old ≡ length network.now.channels }
    requires nodes { All (λ node. node < size_of network.now) nodes.now }
    requires known { AreBelow network.now.channels (count_at counts.old) peaks.old }
    ensures raises { OnSome result (Raises network.now.channels (repeated turns nodes.now)
        counts.old peaks.old counts.new peaks.new) }
    ensures none { IfNone result (PassesBound
        (after (count_at counts.old) (repeated turns nodes.now))) }
{
    for turn in 0..turns {
        raise_by_list(network, nodes, counts, peaks)?;
    }
    Some(())
}

/// Raises the peaks to those while each of a list of nodes fires once.
fn raise_by_list(
    network: &Network,
    nodes: &[u32],
    counts: &mut [u128],
    peaks: &mut [u128],
) -> Option<()>
    requires each { length counts.old ≡ size_of network.now }
    requires peaks { length peaks.old ≡ length network.now.channels }
    requires nodes { All (λ node. node < size_of network.now) nodes.now }
    requires known { AreBelow network.now.channels (count_at counts.old) peaks.old }
    ensures raises { OnSome result (Raises network.now.channels nodes.now
        counts.old peaks.old counts.new peaks.new) }
    ensures none { IfNone result (PassesBound (after (count_at counts.old) nodes.now)) }
{
    for node in nodes {
        raise_by_turns(network, *node as usize, 1, counts, peaks)?;
    }
    Some(())
}

/// Raises the peaks to those while a node fires so often.
///
/// From the second on, each of them adds as many items to a channel as the one before, or takes as
/// many: so there are most after the first or after the last one.
fn raise_by_turns(
    network: &Network,
    node: usize,
    turns: u32,
    counts: &mut [u128],
    peaks: &mut [u128],
) -> Option<()>
    requires each { length counts.old ≡ size_of network.now }
    requires peaks { length peaks.old ≡ length network.now.channels }
    requires node { node < size_of network.now }
    requires some { 0 < turns }
    requires known { AreBelow network.now.channels (count_at counts.old) peaks.old }
    ensures raises { OnSome result (Raises network.now.channels (repeated turns (node ∷ []))
        counts.old peaks.old counts.new peaks.new) }
    ensures none { IfNone result (PassesBound
        (after (count_at counts.old) (repeated turns (node ∷ [])))) }
{
    add_firings(counts, node, 1)?;
    raise_at(network, network.outgoing(node), counts, peaks)?;
    add_firings(counts, node, turns - 1)?;
    raise_at(network, network.outgoing(node), counts, peaks)?;
    Some(())
}

/// Counts so many more firings of a node.
fn add_firings(counts: &mut [u128], node: usize, turns: u32) -> Option<()>
    requires { node < length counts.old }
    ensures counts { OnSome result (counts.new ≡ slice_set counts.old node
        (count_at counts.old node + turns)) }
    ensures none { IfNone result (2 ^ 128 ≤ count_at counts.old node + turns) }
{
    counts[node] = counts[node].checked_add(u128::from(turns))?;
    Some(())
}

/// Raises the greatest numbers of items of channels to those that are there.
fn raise_at(network: &Network, numbers: &[usize], counts: &[u128], peaks: &mut [u128]) -> Option<()>
    requires each { length counts.now ≡ size_of network.now }
    requires peaks { length peaks.old ≡ length network.now.channels }
    requires numbers { All (λ number. number < length network.now.channels) numbers.now }
    ensures peaks { OnSome result (length peaks.new ≡ length peaks.old) }
    ensures touched { OnSome result (AreTouched network.now.channels (count_at counts.now)
        peaks.old peaks.new) }
    ensures served { OnSome result ((number : ℕ) (rates : ChannelRates)
        → Contains numbers.now number
        → slice_get network.now.channels number ≡ Some rates
        → spec.fill rates (count_at counts.now) ≤ slice_index peaks.new number) }
    ensures none { IfNone result (PassesBound (count_at counts.now)) }
{
    for number in numbers {
        let items = fill(network.channel(*number), counts)?;
        peaks[*number] = peaks[*number].max(items);
    }
    Some(())
}

/// How many items are on a channel.
///
/// None where so many have come, or were popped, that the number doesn't fit into 128 bits.
pub(crate) fn fill(rates: &ChannelRates, counts: &[u128]) -> Option<u128>
    requires ends { HasEnds (length counts.now) rates.now }
    requires bounds { IsBounded rates.now }
    ensures fill { IfSome result (λ items. items
        ≡ spec.fill rates.now (count_at counts.now)) }
    ensures none { IfNone result (PassesBound (count_at counts.now)) }
{
    let come = supply_after(rates, counts[rates.source])?;
    let gone = popped_after(rates, counts[rates.target])?;
    Some(come.saturating_sub(gone))
}

/// How many items have come on a channel after so many firings of its source.
fn supply_after(rates: &ChannelRates, firings: u128) -> Option<u128>
    requires { IsBounded rates.now }
    ensures supply { IfSome result (λ items. items ≡ startup.supply rates.now firings) }
    ensures none { IfNone result (count_bound < firings) }
{
    if firings == 0 {
        return Some(rates.enqueued);
    }
    let later = rates.push.checked_mul(firings - 1)?;
    later.checked_add(rates.enqueued + rates.first_push)
}

/// How many items so many firings of its target pop from a channel.
fn popped_after(rates: &ChannelRates, firings: u128) -> Option<u128>
    requires { IsBounded rates.now }
    ensures popped { IfSome result (λ items. items ≡ startup.popped rates.now firings) }
    ensures none { IfNone result (count_bound < firings) }
{
    if firings == 0 {
        return Some(0);
    }
    let later = rates.pop.checked_mul(firings - 1)?;
    later.checked_add(rates.first_pop)
}
