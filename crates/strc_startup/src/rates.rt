// The rates of a graph's channels, and its nodes' first counts.

ghost use Rattle.std.specs.Prelude.{◌≡◌, ◌<◌, ◌≤◌, ◌^◌, All, IfOk, length, map};
ghost use Rattle.strc_balance.specs.Rates.{IsRated, equations_of};
ghost use Rattle.strc_elab_graph.specs.Graphs.{JoinsPorts};
ghost use Rattle.strc_elab_graph.specs.NodeView.{graph_view, node_view, copied_view, channel_view};
ghost use Rattle.strc_startup.specs.Rates as spec;
ghost use Rattle.strc_startup.specs.Waiting.{HasEnds, IsBounded, Pushes};

use crate::channel_rates::ChannelRates;
use std::alloc::{AllocError, Global};
use strc_elab_graph::graph::{Channel, Copied, Graph, Node};
use strc_elab_graph::rates::{pops_at, pushes_at, window_at};

/// The rates of each channel of a graph; at both ends they are at least 1 by `work`.
pub fn channel_rates(alloc: Global, graph: &Graph) -> Result<Vec<ChannelRates>, AllocError>
    requires { All IsRated (equations_of (graph_view graph.now)) }
    ensures rates { IfOk result (λ rates. rates.items ≡ spec.rates_of (graph_view graph.now)) }
    ensures ends { IfOk result (λ rates. All (HasEnds (length graph.now.nodes)) rates.items) }
    ensures pushes { IfOk result (λ rates. All Pushes rates.items) }
    ensures bounds { IfOk result (λ rates. All IsBounded rates.items) }
{
    let rates = rates_of(alloc, graph.nodes(), graph.channels())?;
    Ok(rates)
}

/// The targets of channels.
pub fn targets_of(alloc: Global, channels: &[ChannelRates]) -> Result<Vec<usize>, AllocError>
    ensures { IfOk result (λ targets. targets.items
        ≡ map (λ rates. rates.target) channels.now) }
{
    let mut targets = Vec::with_capacity(alloc, channels.len())?;
    for rates in channels {
        targets.push(rates.target)?;
    }
    Ok(targets)
}

/// The sources of channels.
pub fn sources_of(alloc: Global, channels: &[ChannelRates]) -> Result<Vec<usize>, AllocError>
    ensures { IfOk result (λ sources. sources.items
        ≡ map (λ rates. rates.source) channels.now) }
{
    let mut sources = Vec::with_capacity(alloc, channels.len())?;
    for rates in channels {
        sources.push(rates.source)?;
    }
    Ok(sources)
}

/// The rates of each channel.
fn rates_of(
    alloc: Global,
    nodes: &[Node],
    channels: &[Channel],
) -> Result<Vec<ChannelRates>, AllocError>
    requires { All (JoinsPorts (map node_view nodes.now)) (map channel_view channels.now) }
    ensures rates { IfOk result (λ rates. rates.items
        ≡ map (spec.rates_of_channel (map node_view nodes.now)) (map channel_view channels.now)) }
    ensures bounds { IfOk result (λ rates. All IsBounded rates.items) }
{
    let mut rates = Vec::with_capacity(alloc, channels.len())?;
    for channel in channels {
        rates.push(rates_of_channel(nodes, channel))?;
    }
    Ok(rates)
}

/// The rates of a channel.
fn rates_of_channel(nodes: &[Node], channel: &Channel) -> ChannelRates
    requires { JoinsPorts (map node_view nodes.now) (channel_view channel.now) }
    ensures rates { result ≡ spec.rates_of_channel (map node_view nodes.now)
        (channel_view channel.now) }
    ensures bounds { IsBounded result }
{
    let source = &nodes[channel.source.node as usize];
    let target = &nodes[channel.target.node as usize];
    let output = channel.source.port as usize;
    let input = channel.target.port as usize;
    ChannelRates {
        source: channel.source.node as usize,
        enqueued: channel.enqueued.len() as u128,
        first_push: pushes_at(source, 0, output),
        push: pushes_at(source, 1, output),
        target: channel.target.node as usize,
        prework_window: prework_window(target, input),
        first_window: window_at(target, 0, input),
        first_pop: pops_at(target, 0, input),
        pop: pops_at(target, 1, input),
        window: window_at(target, 1, input),
    }
}

/// How many items a node's prework looks at, at an input port; 0 where it has none.
fn prework_window(node: &Node, port: usize) -> u128
    ensures window { result ≡ spec.window_of_prework (node_view node.now) port }
    ensures bound { result < 2 ^ 96 }
{
    if has_prework(node) {
        window_at(node, 0, port)
    } else {
        0
    }
}

/// Whether a node has a prework.
fn has_prework(node: &Node) -> bool
    ensures { result ≡ spec.has_prework (node_view node.now) }
{
    match node {
        Node::Filter(instance) => instance.code.has_prework(),
        Node::Copy(copied, _) => copied_prework(copied),
        _ => false,
    }
}

/// Whether what is copied has a prework.
fn copied_prework(copied: &Copied) -> bool
    ensures { result ≡ spec.copied_prework (copied_view copied.now) }
{
    match copied {
        Copied::Filter(instance) => instance.code.has_prework(),
        Copied::Identity => false,
    }
}

/// How often each node fires at least.
pub(crate) fn first_counts(alloc: Global, nodes: &[Node]) -> Result<Vec<u32>, AllocError>
    ensures { IfOk result (λ counts. counts.items
        ≡ map spec.first_count (map node_view nodes.now)) }
{
    let mut counts = Vec::with_capacity(alloc, nodes.len())?;
    for node in nodes {
        counts.push(u32::from(has_prework(node)))?;
    }
    Ok(counts)
}
