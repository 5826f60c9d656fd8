// The channels of a graph, by number and by the nodes at their ends.

ghost use Rattle.std.specs.Prelude.{◌≡◌, ℕ, ◌<◌, ◌≤◌, ◌^◌, length, map, slice_get, Some, All, IfOk};
ghost use Rattle.strc_startup.specs.Grouping.{places_at, IsGrouping};
ghost use Rattle.strc_startup.specs.Waiting.{HasEnds, IsBounded};
ghost use Rattle.strc_sched_orders.specs.Network.{size_of, IsNetwork};

use std::alloc::{AllocError, Global};
use std::marker::Model;
use strc_startup::channel_rates::ChannelRates;
use strc_startup::positions::{Grouping, grouping_of};
use strc_startup::rates::{sources_of, targets_of};

/// The channels of a graph. Contracts see their rates and their numbers by node.
pub(crate) struct Network {
    channels: Vec<ChannelRates>,
    incoming: Grouping,
    outgoing: Grouping,
}

impl Drop for Network {
    fn drop(self) {
        let Network {
            channels: _,
            incoming: _,
            outgoing: _,
        } = self;
    }
}

impl Model for Network {
    ghost use Rattle.strc_sched_orders.specs.Network.{NetworkView, IsNetwork};

    ghost Value = { NetworkView };

    ghost view = { λ n. record {
      channels = n.channels.items;
      incoming = n.incoming;
      outgoing = n.outgoing;
    } };

    ghost invariant = { λ n. IsNetwork (record {
      channels = n.channels.items;
      incoming = n.incoming;
      outgoing = n.outgoing;
    }) };
}

impl Network {
    /// The network of these channels and so many nodes.
    pub(crate) fn new(
        alloc: Global,
        channels: Vec<ChannelRates>,
        size: usize,
    ) -> Result<Network, AllocError>
        requires ends { All (HasEnds size) channels.items }
        requires bounds { All IsBounded channels.items }
        requires few { size ≤ 2 ^ 32 }
        ensures channels { IfOk result (λ network. network.channels ≡ channels.items) }
        ensures size { IfOk result (λ network. size_of network ≡ size) }
    {
        let incoming = incoming_of(alloc, &channels, size)?;
        let outgoing = outgoing_of(alloc, &channels, size)?;
        Ok(Network {
            channels,
            incoming,
            outgoing,
        })
    }

    /// How many nodes there are.
    pub(crate) fn size(&self) -> usize
        ensures size { result ≡ size_of self.now }
        ensures network { IsNetwork self.now }
    {
        self.incoming.len()
    }

    /// The rates of all channels.
    pub(crate) fn channels(&self) -> &[ChannelRates]
        ensures channels { result.now ≡ self.now.channels }
        ensures network { IsNetwork self.now }
    {
        self.channels.as_slice()
    }

    /// The rates of a channel.
    pub(crate) fn channel(&self, number: usize) -> &ChannelRates
        requires { number < length self.now.channels }
        ensures rates { slice_get self.now.channels number ≡ Some result.now }
        ensures network { IsNetwork self.now }
    {
        &self.channels[number]
    }

    /// The numbers of the channels that end at a node.
    pub(crate) fn incoming(&self, node: usize) -> &[usize]
        requires { node < size_of self.now }
        ensures numbers { result.now ≡ places_at self.now.incoming node }
        ensures network { IsNetwork self.now }
    {
        self.incoming.at(node)
    }

    /// The numbers of the channels that begin at a node.
    pub(crate) fn outgoing(&self, node: usize) -> &[usize]
        requires { node < size_of self.now }
        ensures numbers { result.now ≡ places_at self.now.outgoing node }
        ensures network { IsNetwork self.now }
    {
        self.outgoing.at(node)
    }
}

/// For each of so many nodes the numbers of the channels that end there.
fn incoming_of(
    alloc: Global,
    channels: &[ChannelRates],
    size: usize,
) -> Result<Grouping, AllocError>
    requires { All (HasEnds size) channels.now }
    ensures groups { IfOk result (λ groups. IsGrouping groups
        (map (λ rates. rates.target) channels.now)) }
    ensures size { IfOk result (λ groups. length groups ≡ size) }
{
    let targets = targets_of(alloc, channels)?;
    grouping_of(alloc, &targets, size)
}

/// And of those that begin there.
fn outgoing_of(
    alloc: Global,
    channels: &[ChannelRates],
    size: usize,
) -> Result<Grouping, AllocError>
    requires { All (HasEnds size) channels.now }
    ensures groups { IfOk result (λ groups. IsGrouping groups
        (map (λ rates. rates.source) channels.now)) }
    ensures size { IfOk result (λ groups. length groups ≡ size) }
{
    let sources = sources_of(alloc, channels)?;
    grouping_of(alloc, &sources, size)
}
