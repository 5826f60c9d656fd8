// The sizes of buffers while an order of one round fires.

ghost use Rattle.std.specs.Prelude.{◌≡◌, ℕ, Bool, ◌≤◌, All, Err, IfOk, IfErr, [], length};
ghost use Rattle.strc_elab_graph.specs.NodeView.{graph_view};
ghost use Rattle.strc_sched_orders.specs.Buffers.{size_limit};
ghost use Rattle.strc_sched_orders.specs.Firings.{none_fired};
ghost use Rattle.strc_sched_orders.specs.Greedy.{firings_of};
ghost use Rattle.strc_sched_orders.specs.Network.{size_of};
ghost use Rattle.strc_sched_orders.specs.Peaks.{AreRaised, HasNodes};
ghost use Rattle.strc_sched_orders.specs.Sizing.{round_rates_on, PassesOn, HasNoSizes};
ghost use Rattle.strc_sched_orders.specs.declared.error.ScheduleError.TheVariants as refused;

use crate::buffers::{first_past, narrowed, zeros};
use crate::error::ScheduleError;
use crate::limit::NUMBERED_NODES;
use crate::network::Network;
use crate::peaks::after_units;
use crate::round_rates::rates_from;
use crate::unit::Unit;
use std::alloc::{AllocError, Global};
use strc_elab_graph::graph::Graph;

/// The sizes of all buffers while an order of one round fires, on channels that have so many items:
/// for each channel the greatest of a number from before and its numbers of items before, between
/// and after the firings.
///
/// The graph can have nodes of every kind, and the units several nodes. Each firing pushes and pops
/// what it does by `work`; a copy pops what its filter pops. `BufferLimit` comes for the lowest
/// channel whose greatest number is above 16,777,216. `NoMemory` can come in place of any answer,
/// and comes where the graph has more than 4,294,967,296 nodes. Memory apart, it comes else only
/// where a node fires 2^128 times, or as many items come on a channel or leave it: at the rates of
/// programs, which are below 2^52, that takes more than 2^75 firings, to which no list of units
/// comes in the life of a machine.
pub fn sizes(
    alloc: Global,
    graph: &Graph,
    before: &[u32],
    fill: &[u32],
    round: &[Unit],
) -> Result<Vec<u32>, ScheduleError>
    requires before { length before.now ≡ length graph.now.channels }
    requires fill { length fill.now ≡ length graph.now.channels }
    requires nodes { All (HasNodes (length graph.now.nodes)) round.now }
    ensures channels { IfOk result (λ sizes. length sizes.items ≡ length graph.now.channels) }
    ensures within { IfOk result (λ sizes. All (λ size. size ≤ size_limit) sizes.items) }
    ensures sizes { IfOk result (λ sizes. AreRaised (round_rates_on (graph_view graph.now) fill.now)
        none_fired (firings_of round.now) before.now sizes.items) }
    ensures limit { (channel : ℕ) → result ≡ Err (refused.BufferLimit channel)
        → PassesOn (round_rates_on (graph_view graph.now) fill.now) none_fired
        (firings_of round.now) before.now channel }
    ensures error { (in_startup : Bool) → ¬ (result ≡ Err (refused.Deadlock in_startup)) }
{
    let network = network_on(alloc, graph, fill)?;
    sizes_on(alloc, &network, before, round)
}

/// The network of channels that have so many items, in one round.
fn network_on(alloc: Global, graph: &Graph, fill: &[u32]) -> Result<Network, AllocError>
    requires fill { length fill.now ≡ length graph.now.channels }
    ensures channels { IfOk result (λ network. network.channels
        ≡ round_rates_on (graph_view graph.now) fill.now) }
    ensures size { IfOk result (λ network. size_of network ≡ length graph.now.nodes) }
{
    let size = graph.nodes().len();
    if size > NUMBERED_NODES {
        return Err(AllocError);
    }
    let rates = rates_from(alloc, graph.nodes(), graph.channels(), fill)?;
    Network::new(alloc, rates, size)
}

/// The sizes while units fire from the beginning.
fn sizes_on(
    alloc: Global,
    network: &Network,
    before: &[u32],
    round: &[Unit],
) -> Result<Vec<u32>, ScheduleError>
    requires before { length before.now ≡ length network.now.channels }
    requires nodes { All (HasNodes (size_of network.now)) round.now }
    ensures channels { IfOk result (λ sizes. length sizes.items ≡ length network.now.channels) }
    ensures within { IfOk result (λ sizes. All (λ size. size ≤ size_limit) sizes.items) }
    ensures sizes { IfOk result (λ sizes. AreRaised network.now.channels none_fired
        (firings_of round.now) before.now sizes.items) }
    ensures none { IfErr result (HasNoSizes network.now.channels none_fired (firings_of round.now)
        before.now) }
{
    let peaks = peaks_on(alloc, network, before, round)?;
    if let Some(channel) = first_past(&peaks) {
        return Err(ScheduleError::BufferLimit { channel });
    }
    Ok(narrowed(alloc, &peaks)?)
}

/// The greatest numbers of items while units fire from the beginning.
fn peaks_on(
    alloc: Global,
    network: &Network,
    before: &[u32],
    round: &[Unit],
) -> Result<Vec<u128>, AllocError>
    requires before { length before.now ≡ length network.now.channels }
    requires nodes { All (HasNodes (size_of network.now)) round.now }
    ensures each { IfOk result (λ peaks. length peaks.items ≡ length network.now.channels) }
    ensures raised { IfOk result (λ peaks. AreRaised network.now.channels none_fired
        (firings_of round.now) before.now peaks.items) }
{
    let counts = zeros(alloc, network.size())?;
    let peaks = peaks_from(alloc, network, before)?;
    let Some((_counts, raised)) = after_units(network, round, counts, peaks) else {
        return Err(AllocError);
    };
    Ok(raised)
}

/// For each channel the greater of a number and of its items before any firing.
fn peaks_from(alloc: Global, network: &Network, before: &[u32]) -> Result<Vec<u128>, AllocError>
    requires { length before.now ≡ length network.now.channels }
    ensures each { IfOk result (λ peaks. length peaks.items ≡ length network.now.channels) }
    ensures peaks { IfOk result (λ peaks. AreRaised network.now.channels none_fired [] before.now
        peaks.items) }
{
    let channels = network.channels();
    let mut peaks = Vec::with_capacity(alloc, before.len())?;
    for channel in 0..before.len() {
        peaks.push(channels[channel].enqueued.max(u128::from(before[channel])))?;
    }
    Ok(peaks)
}
