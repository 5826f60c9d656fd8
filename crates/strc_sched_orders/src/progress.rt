// How far an order has come.

ghost use Rattle.std.specs.Prelude.{◌≡◌, ℕ, ◌+◌, ◌-◌, ◌<◌, ◌≤◌, length, All};
ghost use Rattle.std.specs.Prelude.{slice_get, slice_set, Some, IfOk, OnOk, IfSome, IfNone};
ghost use Rattle.std.specs.Prelude.{IsTrue, ◌↔◌};
ghost use Rattle.strc_balance.specs.Balance.{count_at};
ghost use Rattle.strc_startup.specs.declared.channel_rates.ChannelRates.{ChannelRates};
ghost use Rattle.strc_sched_orders.specs.Firings.{HasWindow};
ghost use Rattle.strc_sched_orders.specs.Network.{size_of};
ghost use Rattle.strc_sched_orders.specs.Progress.{count_bound, AreCounts, IsStuck, HasFirst};
ghost use Rattle.strc_sched_orders.specs.Progress.{EndsAt};
ghost use Rattle.strc_sched_orders.specs.Progress.{IsSound, IsProgress, IsCompleteBut, IsUnseen};
ghost use Rattle.strc_sched_orders.specs.Progress.{Begins};
ghost use Rattle.strc_sched_orders.specs.Progress.{LooksAt, Completes, FiresNext, TakesUnit};

use crate::network::Network;
use crate::padded_counts::padded;
use crate::turns::{has_window, turns_at};
use std::alloc::{AllocError, Global};
use std::marker::Model;
use strc_balance::number_set::NumberSet;

/// How often each node has fired and is yet to fire, and the nodes that can fire.
///
/// A node is looked at again where a channel to it gets items. Then only the channels are looked at
/// from the first on that had no window for it: no other firing takes a window away.
pub(crate) struct Progress {
    /// How often each node has fired since the beginning.
    counts: Vec<u32>,
    /// How often each node is yet to fire.
    left: Vec<u32>,
    /// How many of each node's incoming channels, from the first on, are known to have its window.
    found: Vec<usize>,
    /// The nodes that have firings left and find their windows.
    ready: NumberSet,
}

impl Drop for Progress {
    fn drop(self) {
        let Progress {
            counts: _,
            left: _,
            found: _,
            ready: _,
        } = self;
    }
}

impl Model for Progress {
    ghost use Rattle.strc_sched_orders.specs.Progress.{ProgressView};

    ghost Value = { ProgressView };

    ghost view = { λ p. record {
      counts = p.counts.items;
      left = p.left.items;
      found = p.found.items;
      ready = p.ready;
    } };
}

impl Progress {
    /// From these counts so many firings of each node are to come.
    pub(crate) fn new(
        alloc: Global,
        network: &Network,
        counts: &[u32],
        left: &[u32],
    ) -> Result<Progress, AllocError>
        requires counts { length counts.now ≤ size_of network.now }
        requires left { length left.now ≤ size_of network.now }
        requires few { (node : ℕ) → count_at counts.now node + count_at left.now node
            ≤ count_bound }
        ensures { IfOk result (Begins network.now counts.now left.now) }
    {
        let mut progress = Progress::unseen(alloc, network.size(), counts, left)?;
        progress.look_at_all(network)?;
        Ok(progress)
    }

    /// So many firings to come from these counts, before any node was looked at.
    fn unseen(
        alloc: Global,
        size: usize,
        counts: &[u32],
        left: &[u32],
    ) -> Result<Progress, AllocError>
        requires counts { length counts.now ≤ size }
        requires left { length left.now ≤ size }
        ensures { IfOk result (IsUnseen size counts.now left.now) }
    {
        Ok(Progress {
            counts: padded(alloc, counts, size)?,
            left: padded(alloc, left, size)?,
            found: Vec::from_elem(alloc, 0, size)?,
            ready: NumberSet::with_capacity(alloc, size)?,
        })
    }

    /// Looks at all nodes.
    fn look_at_all(&mut self, network: &Network) -> Result<(), AllocError>
        requires { IsSound network.now self.old }
        ensures { OnOk result (Completes network.now self.old self.new) }
    {
        for node in 0..network.size() {
            self.look_at(network, node)?;
        }
        Ok(())
    }

    /// Whether no firings are left.
    pub(crate) fn is_done(&self) -> bool
        ensures { IsTrue result ↔ ((node : ℕ) → count_at self.now.left node ≡ 0) }
    {
        for left in &self.left {
            if *left > 0 {
                return false;
            }
        }
        true
    }

    /// Fires the lowest node that can fire, as often as it can at once; None where none can.
    pub(crate) fn take_unit(&mut self, network: &Network) -> Result<Option<(u32, u32)>, AllocError>
        requires { IsProgress network.now self.old }
        ensures next { IfOk result (λ taken. IfSome taken (λ unit.
            TakesUnit network.now self.old self.new unit.0 unit.1)) }
        ensures stuck { IfOk result (λ taken. IfNone taken (IsStuck network.now.channels
            (count_at self.old.counts) (count_at self.old.left) × (self.new ≡ self.old))) }
    {
        let Some((turns, node)) = self.fire_lowest(network) else {
            return Ok(None);
        };
        self.look_along(network, network.outgoing(node))?;
        Ok(Some((turns, node as u32)))
    }

    /// Fires the lowest node that can fire, and leaves open what becomes known of the nodes at
    /// which its channels end.
    fn fire_lowest(&mut self, network: &Network) -> Option<(u32, usize)>
        requires { IsProgress network.now self.old }
        ensures next { IfSome result (λ unit.
            FiresNext network.now self.old self.new unit.0 unit.1) }
        ensures stuck { IfNone result (IsStuck network.now.channels
            (count_at self.old.counts) (count_at self.old.left) × (self.new ≡ self.old)) }
    {
        let Some(node) = self.ready.take_lowest() else {
            return None;
        };
        let turns = turns_at(network, node, &self.counts, self.left[node]);
        self.fire(node, turns);
        Some((turns, node))
    }

    /// So many more firings of a node, of whose channels nothing is known then.
    fn fire(&mut self, node: usize, turns: u32)
        requires there { node < length self.old.counts }
        requires yet { node < length self.old.left }
        requires known { node < length self.old.found }
        requires left { turns ≤ count_at self.old.left node }
        requires few { count_at self.old.counts node + turns ≤ count_bound }
        ensures counts { self.new.counts ≡ slice_set self.old.counts node
            (count_at self.old.counts node + turns) }
        ensures left { self.new.left ≡ slice_set self.old.left node
            (count_at self.old.left node - turns) }
        ensures found { self.new.found ≡ slice_set self.old.found node 0 }
        ensures ready { self.new.ready ≡ self.old.ready }
    {
        self.counts[node] += turns;
        self.left[node] -= turns;
        self.found[node] = 0;
    }

    /// Looks at the nodes at which channels end.
    fn look_along(&mut self, network: &Network, numbers: &[usize]) -> Result<(), AllocError>
        requires sound { IsSound network.now self.old }
        requires complete { IsCompleteBut network.now self.old (EndsAt network.now numbers.now) }
        requires numbers { All (λ number. number < length network.now.channels) numbers.now }
        ensures { OnOk result (Completes network.now self.old self.new) }
    {
        for number in numbers {
            self.look_at(network, network.channel(*number).target)?;
        }
        Ok(())
    }

    /// Looks whether a node is ready.
    fn look_at(&mut self, network: &Network, node: usize) -> Result<(), AllocError>
        requires sound { IsSound network.now self.old }
        requires node { node < size_of network.now }
        ensures { OnOk result (LooksAt network.now node self.old self.new) }
    {
        if self.left[node] == 0 {
            return Ok(());
        }
        let incoming = network.incoming(node);
        let found = found_from(network, incoming, &self.counts, self.found[node]);
        self.found[node] = found;
        if found == incoming.len() {
            self.ready.add(node)?;
        }
        Ok(())
    }
}

/// On how many of these channels, from the first on, the node at their end finds its window, where
/// it is known to find it on the first so many.
fn found_from(network: &Network, numbers: &[usize], counts: &[u32], known: usize) -> usize
    requires known { known ≤ length numbers.now }
    requires first { HasFirst network.now numbers.now (count_at counts.now) known }
    requires numbers { All (λ number. number < length network.now.channels) numbers.now }
    requires each { length counts.now ≡ size_of network.now }
    requires few { AreCounts counts.now }
    ensures within { result ≤ length numbers.now }
    ensures first { HasFirst network.now numbers.now (count_at counts.now) result }
    ensures last { (number : ℕ) (rates : ChannelRates) → slice_get numbers.now result ≡ Some number
        → slice_get network.now.channels number ≡ Some rates
        → ¬ HasWindow (count_at counts.now) rates }
{
    let mut found = known;
    while found < numbers.len() && has_window(network.channel(numbers[found]), counts) {
        found += 1;
    }
    found
}
