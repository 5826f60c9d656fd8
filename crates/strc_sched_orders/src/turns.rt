// How often a node can fire at once.

ghost use Rattle.std.specs.Prelude.{◌≡◌, ℕ, ◌+◌, ◌<◌, ◌≤◌, ◌^◌, length, IsTrue, ◌↔◌};
ghost use Rattle.strc_balance.specs.Balance.{count_at};
ghost use Rattle.strc_startup.specs.Startup as startup;
ghost use Rattle.strc_startup.specs.Waiting.{HasEnds, IsBounded};
ghost use Rattle.strc_sched_orders.specs.Firings as spec;
ghost use Rattle.strc_sched_orders.specs.Firings.{HasWindow, FindsWindows, fired};
ghost use Rattle.strc_sched_orders.specs.Network.{size_of, IsNetwork};
ghost use Rattle.strc_sched_orders.specs.Progress.{AreCounts, count_bound};

use crate::network::Network;
use strc_startup::channel_rates::ChannelRates;

/// How many items have come on a channel after so many firings of its source.
pub(crate) fn supply(rates: &ChannelRates, firings: u32) -> u128
    requires bounds { IsBounded rates.now }
    requires few { firings ≤ count_bound }
    ensures supply { result ≡ startup.supply rates.now firings }
    ensures bound { result < 2 ^ 120 }
{
    if firings == 0 {
        rates.enqueued
    } else {
        rates.enqueued + rates.first_push + rates.push * u128::from(firings - 1)
    }
}

/// How many items so many firings of its target pop from a channel.
pub(crate) fn popped(rates: &ChannelRates, firings: u32) -> u128
    requires bounds { IsBounded rates.now }
    requires few { firings ≤ count_bound }
    ensures popped { result ≡ startup.popped rates.now firings }
    ensures bound { result < 2 ^ 120 }
{
    if firings == 0 {
        0
    } else {
        rates.first_pop + rates.pop * u128::from(firings - 1)
    }
}

/// How far the next firing of a channel's target sees, from the first item that was ever there.
fn reach(rates: &ChannelRates, firings: u32) -> u128
    requires bounds { IsBounded rates.now }
    requires few { firings ≤ count_bound }
    ensures reach { result ≡ spec.reach rates.now firings }
    ensures bound { result < 2 ^ 121 }
{
    if firings == 0 {
        rates.first_window
    } else {
        popped(rates, firings) + rates.window
    }
}

/// Whether the next firing of a channel's target finds its window there.
pub(crate) fn has_window(rates: &ChannelRates, counts: &[u32]) -> bool
    requires ends { HasEnds (length counts.now) rates.now }
    requires bounds { IsBounded rates.now }
    requires few { AreCounts counts.now }
    ensures { IsTrue result ↔ HasWindow (count_at counts.now) rates.now }
{
    reach(rates, counts[rates.target]) <= supply(rates, counts[rates.source])
}

/// How often a firing of a channel's target is one of its source: where it leads from a node to
/// itself, once.
fn returned(rates: &ChannelRates) -> u32
    ensures returned { result ≡ spec.turns_of 1 rates.now.target rates.now.source }
    ensures bound { result ≤ 1 }
{
    if rates.source == rates.target { 1 } else { 0 }
}

/// How often a channel's target can fire at once, as far as this channel goes; at most so often.
///
/// Where a channel leads from a node to itself, each firing also adds to it.
fn turns_on(rates: &ChannelRates, counts: &[u32], limit: u32) -> u32
    requires ends { HasEnds (length counts.now) rates.now }
    requires bounds { IsBounded rates.now }
    requires few { AreCounts counts.now }
    requires room { count_at counts.now rates.now.target + limit ≤ count_bound }
    ensures within { result ≤ limit }
    ensures finds { (earlier : ℕ) → earlier < result
        → HasWindow (fired (count_at counts.now) earlier rates.now.target) rates.now }
    ensures most { result < limit
        → ¬ HasWindow (fired (count_at counts.now) result rates.now.target) rates.now }
{
    if limit == 0 || !has_window(rates, counts) {
        return 0;
    }
    let returned = returned(rates);
    let come = supply(rates, counts[rates.source] + returned);
    let seen = reach(rates, counts[rates.target] + 1);
    if come < seen {
        return 1;
    }
    let gain = rates.push * u128::from(returned);
    if rates.pop <= gain {
        return limit;
    }
    let more = (come - seen) / (rates.pop - gain);
    if more >= u128::from(limit) {
        limit
    } else {
        limit.min(more as u32 + 2)
    }
}

/// How often a node can fire at once, at most so often.
pub(crate) fn turns_at(network: &Network, node: usize, counts: &[u32], limit: u32) -> u32
    requires node { node < size_of network.now }
    requires each { length counts.now ≡ size_of network.now }
    requires few { AreCounts counts.now }
    requires room { count_at counts.now node + limit ≤ count_bound }
    ensures network { IsNetwork network.now }
    ensures within { result ≤ limit }
    ensures finds { (earlier : ℕ) → earlier < result → FindsWindows network.now.channels
        (fired (count_at counts.now) earlier node) node }
    ensures most { result < limit → ¬ FindsWindows network.now.channels
        (fired (count_at counts.now) result node) node }
{
    let mut turns = limit;
    for number in network.incoming(node) {
        turns = turns_on(network.channel(*number), counts, turns);
    }
    turns
}
