// The channels after fission, with what they hold in start-up.

ghost use Rattle.std.specs.Prelude.{◌≡◌, ℕ, suc, ◌+◌, ◌<◌, ◌≤◌, ◌^◌, ◌++◌, [], All, IfOk, OnOk};
ghost use Rattle.std.specs.Prelude.{map};
ghost use Rattle.std.specs.Prelude.{◌∷◌, length, get_or, slice_set};
ghost use Rattle.std.specs.List.{flat_map};
ghost use Rattle.strc_elab_graph.specs.Graphs.{IsGraph};
ghost use Rattle.strc_elab_graph.specs.NodeView.{graph_view, channel_view};
ghost use Rattle.strc_fiss.specs.Numbers.{up_to, joined_up_to, share_at, last_of, last_part, base};
ghost use Rattle.strc_fiss.specs.Numbers.{is_dealt};
ghost use Rattle.strc_fiss.specs.Groups.{AreGroups};
ghost use Rattle.strc_fiss.specs.Splitting as spec;
ghost use Rattle.strc_fiss.specs.WireView.{wire_view, group_view};

use std::alloc::{AllocError, Global};
use strc_elab_graph::graph::{Channel, Fission, Graph, Port};
use strc_sched_orders::parts::Schedule;

/// A channel, with its greatest and its last number of items in start-up.
pub(crate) struct Wire {
    pub channel: Channel,
    pub greatest: u32,
    pub last: u32,
}

impl Drop for Wire {
    fn drop(self) {
        let Wire {
            channel: _,
            greatest: _,
            last: _,
        } = self;
    }
}

impl Wire {
    /// The channel alone.
    fn into_channel(self) -> Channel
        ensures { result ≡ self.channel }
    {
        let Wire {
            channel,
            greatest: _,
            last: _,
        } = self;
        channel
    }
}

/// The channels between the parts of each node.
fn inner_groups(
    alloc: Global,
    shares: &[Fission],
    bases: &[u32],
) -> Result<Vec<Vec<Wire>>, AllocError>
    requires bases { bases.now ≡ up_to (base (share_at shares.now)) (suc (length shares.now)) }
    requires within { base (share_at shares.now) (length shares.now) < 2 ^ 32 }
    ensures { IfOk result (λ groups. map group_view groups.items
        ≡ up_to (λ node. spec.inner_wires (base (share_at shares.now) node)
        (share_at shares.now node)) (length shares.now)) }
{
    let mut groups = Vec::with_capacity(alloc, shares.len())?;
    for node in 0..shares.len() {
        groups.push(inner_wires(alloc, bases[node], shares[node])?)?;
    }
    Ok(groups)
}

/// The channels between the parts of a node, of which the first has this number.
fn inner_wires(alloc: Global, number: u32, share: Fission) -> Result<Vec<Wire>, AllocError>
    requires { number + last_of share < 2 ^ 32 }
    ensures { IfOk result (λ wires. group_view wires ≡ spec.inner_wires number share) }
{
    let mut wires = Vec::new(alloc);
    if share.ways > 1 {
        push_to_copies(alloc, &mut wires, number, share.ways)?;
        push_from_copies(alloc, &mut wires, number, share.ways)?;
    }
    Ok(wires)
}

/// Adds the channels from a scatter to its copies.
fn push_to_copies(
    alloc: Global,
    wires: &mut Vec<Wire>,
    number: u32,
    ways: u32,
) -> Result<(), AllocError>
    requires { number + suc ways < 2 ^ 32 }
    ensures { OnOk result (map wire_view wires.new.items ≡ map wire_view wires.old.items
        ++ up_to (spec.to_copy number) ways) }
{
    for copy in 0..ways {
        wires.push(wire_to_copy(alloc, number, copy))?;
    }
    Ok(())
}

/// Adds the channels from the copies to their gather.
fn push_from_copies(
    alloc: Global,
    wires: &mut Vec<Wire>,
    number: u32,
    ways: u32,
) -> Result<(), AllocError>
    requires { number + suc ways < 2 ^ 32 }
    ensures { OnOk result (map wire_view wires.new.items ≡ map wire_view wires.old.items
        ++ up_to (spec.from_copy number ways) ways) }
{
    for copy in 0..ways {
        wires.push(wire_from_copy(alloc, number, ways, copy))?;
    }
    Ok(())
}

/// The channel from a scatter to a copy.
fn wire_to_copy(alloc: Global, number: u32, copy: u32) -> Wire
    requires { number + suc copy < 2 ^ 32 }
    ensures { wire_view result ≡ spec.to_copy number copy }
{
    let source = Port {
        node: number,
        port: copy,
    };
    let target = Port {
        node: number + (copy + 1),
        port: 0,
    };
    new_wire(alloc, source, target)
}

/// The channel from a copy to the gather.
fn wire_from_copy(alloc: Global, number: u32, ways: u32, copy: u32) -> Wire
    requires number { number + suc ways < 2 ^ 32 }
    requires copy { copy < ways }
    ensures { wire_view result ≡ spec.from_copy number ways copy }
{
    let source = Port {
        node: number + (copy + 1),
        port: 0,
    };
    let target = Port {
        node: number + (ways + 1),
        port: copy,
    };
    new_wire(alloc, source, target)
}

/// A channel on which nothing is before the first round.
fn new_wire(alloc: Global, source: Port, target: Port) -> Wire
    ensures { wire_view result ≡ spec.new_wire source target }
{
    Wire {
        channel: Channel {
            source,
            target,
            enqueued: Vec::new(alloc),
        },
        greatest: 0,
        last: 0,
    }
}

/// The channels after fission, in order of the nodes and the ports that they leave.
pub(crate) fn new_wires(
    alloc: Global,
    graph: &Graph,
    schedule: &Schedule,
    shares: &[Fission],
    bases: &[u32],
) -> Result<Vec<Wire>, AllocError>
    requires shares { length shares.now ≡ length graph.now.nodes }
    requires bases { bases.now ≡ up_to (base (share_at shares.now)) (suc (length shares.now)) }
    requires within { base (share_at shares.now) (length shares.now) < 2 ^ 32 }
    requires greatest { length schedule.now.greatest ≡ length graph.now.channels }
    requires last { length schedule.now.last ≡ length graph.now.channels }
    ensures { IfOk result (λ wires. map wire_view wires.items ≡ spec.split_wires
        (share_at shares.now) (graph_view graph.now) schedule.now.greatest schedule.now.last) }
{
    let groups = groups_of(alloc, graph, schedule, shares, bases)?;
    joined(alloc, groups)
}

/// The channels after fission, for each node those that leave its parts.
fn groups_of(
    alloc: Global,
    graph: &Graph,
    schedule: &Schedule,
    shares: &[Fission],
    bases: &[u32],
) -> Result<Vec<Vec<Wire>>, AllocError>
    requires shares { length shares.now ≡ length graph.now.nodes }
    requires bases { bases.now ≡ up_to (base (share_at shares.now)) (suc (length shares.now)) }
    requires within { base (share_at shares.now) (length shares.now) < 2 ^ 32 }
    requires greatest { length schedule.now.greatest ≡ length graph.now.channels }
    requires last { length schedule.now.last ≡ length graph.now.channels }
    ensures { IfOk result (λ groups. AreGroups (share_at shares.now)
        (spec.wires_of (map channel_view graph.now.channels) schedule.now.greatest
        schedule.now.last) (length graph.now.nodes) (map group_view groups.items)) }
{
    let mut groups = inner_groups(alloc, shares, bases)?;
    let channels = graph.channels();
    let greatest = schedule.greatest();
    let last = schedule.last();
    for number in 0..channels.len() {
        let channel = &channels[number];
        let wire = Wire {
            channel: renamed(alloc, channel, shares, bases)?,
            greatest: greatest[number],
            last: last[number],
        };
        add(&mut groups, channel.source.node as usize, wire)?;
    }
    Ok(groups)
}

/// Adds a channel to a node's group.
fn add(groups: &mut Vec<Vec<Wire>>, node: usize, wire: Wire) -> Result<(), AllocError>
    requires { node < length groups.old.items }
    ensures { OnOk result (map group_view groups.new.items
        ≡ slice_set (map group_view groups.old.items) node
        (get_or (map group_view groups.old.items) node [] ++ wire_view wire ∷ [])) }
{
    groups[node].push(wire)?;
    Ok(())
}

/// A channel with the new numbers of its ends.
fn renamed(
    alloc: Global,
    channel: &Channel,
    shares: &[Fission],
    bases: &[u32],
) -> Result<Channel, AllocError>
    requires source { channel.now.source.node < length shares.now }
    requires target { channel.now.target.node < length shares.now }
    requires bases { bases.now ≡ up_to (base (share_at shares.now)) (suc (length shares.now)) }
    requires within { base (share_at shares.now) (length shares.now) < 2 ^ 32 }
    ensures { IfOk result (λ copy. channel_view copy
        ≡ spec.renamed_channel (share_at shares.now) (channel_view channel.now)) }
{
    let source = channel.source.node as usize;
    Ok(Channel {
        source: Port {
            node: last_number(bases[source], shares[source]),
            port: channel.source.port,
        },
        target: Port {
            node: bases[channel.target.node as usize],
            port: channel.target.port,
        },
        enqueued: Vec::from_slice(alloc, &channel.enqueued)?,
    })
}

/// The number of a node's last part, of which the first has this number.
fn last_number(number: u32, share: Fission) -> u32
    requires { number + last_of share < 2 ^ 32 }
    ensures { result ≡ number + last_of share }
{
    if share.ways > 1 {
        number + (share.ways + 1)
    } else {
        number
    }
}

/// All groups, one after the other.
fn joined(alloc: Global, groups: Vec<Vec<Wire>>) -> Result<Vec<Wire>, AllocError>
    ensures { IfOk result (λ wires. map wire_view wires.items
        ≡ flat_map (λ group. group) (map group_view groups.items)) }
{
    let mut wires = Vec::new(alloc);
    for group in groups {
        let mut more = group;
        wires.append(&mut more)?;
    }
    Ok(wires)
}

/// For each channel its greatest number of items in start-up.
pub(crate) fn greatest_of(alloc: Global, wires: &[Wire]) -> Result<Vec<u32>, AllocError>
    ensures { IfOk result (λ counts. counts.items
        ≡ map (λ wire. wire.greatest) (map wire_view wires.now)) }
{
    let mut counts = Vec::with_capacity(alloc, wires.len())?;
    for wire in wires {
        counts.push(wire.greatest)?;
    }
    Ok(counts)
}

/// For each channel its last number of items in start-up.
pub(crate) fn lasts_of(alloc: Global, wires: &[Wire]) -> Result<Vec<u32>, AllocError>
    ensures { IfOk result (λ counts. counts.items
        ≡ map (λ wire. wire.last) (map wire_view wires.now)) }
{
    let mut counts = Vec::with_capacity(alloc, wires.len())?;
    for wire in wires {
        counts.push(wire.last)?;
    }
    Ok(counts)
}

/// The channels alone.
pub(crate) fn channels_of(alloc: Global, wires: Vec<Wire>) -> Result<Vec<Channel>, AllocError>
    ensures { IfOk result (λ channels. map channel_view channels.items
        ≡ map (λ wire. wire.channel) (map wire_view wires.items)) }
{
    let mut channels = Vec::with_capacity(alloc, wires.len())?;
    for wire in wires {
        channels.push(wire.into_channel())?;
    }
    Ok(channels)
}
