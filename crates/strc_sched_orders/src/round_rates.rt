// The rates of a graph's channels in one round, for nodes of every kind.

ghost use Rattle.std.specs.Prelude.{◌≡◌, ◌<◌, ◌^◌, All, IfOk, length, map};
ghost use Rattle.strc_elab_graph.specs.Graphs.{JoinsPorts};
ghost use Rattle.strc_elab_graph.specs.NodeView.{node_view, channel_view};
ghost use Rattle.strc_startup.specs.Waiting.{HasEnds, IsBounded};
ghost use Rattle.strc_sched_orders.specs.RoundRates as spec;
ghost use Rattle.strc_sched_orders.specs.Sizing.{rates_on, all_rates_on};

use std::alloc::{AllocError, Global};
use strc_elab_graph::graph::{Channel, Node};
use strc_elab_graph::rates::{pops_at, pushes_at, window_at};
use strc_startup::channel_rates::ChannelRates;

/// The rates of channels that have so many items, in one round.
pub(crate) fn rates_from(
    alloc: Global,
    nodes: &[Node],
    channels: &[Channel],
    fill: &[u32],
) -> Result<Vec<ChannelRates>, AllocError>
    requires ports { All (JoinsPorts (map node_view nodes.now)) (map channel_view channels.now) }
    requires each { length fill.now ≡ length channels.now }
    ensures rates { IfOk result (λ rates. rates.items
        ≡ all_rates_on (map (spec.round_rates_of_channel (map node_view nodes.now))
        (map channel_view channels.now)) fill.now) }
    ensures bounds { IfOk result (λ rates. All IsBounded rates.items) }
{
    let mut rates = Vec::with_capacity(alloc, channels.len())?;
    for channel in 0..channels.len() {
        rates.push(rates_at(nodes, &channels[channel], fill[channel]))?;
    }
    Ok(rates)
}

/// The rates of a channel that has so many items.
fn rates_at(nodes: &[Node], channel: &Channel, fill: u32) -> ChannelRates
    requires { JoinsPorts (map node_view nodes.now) (channel_view channel.now) }
    ensures rates { result ≡ rates_on (spec.round_rates_of_channel (map node_view nodes.now)
        (channel_view channel.now)) fill }
    ensures bounds { IsBounded result }
{
    let source = &nodes[channel.source.node as usize];
    let target = &nodes[channel.target.node as usize];
    let push = pushes_at(source, 1, channel.source.port as usize);
    let pop = pops_in_round(target, channel.target.port as usize);
    let window = window_at(target, 1, channel.target.port as usize);
    ChannelRates {
        source: channel.source.node as usize,
        enqueued: u128::from(fill),
        first_push: push,
        push,
        target: channel.target.node as usize,
        prework_window: 0,
        first_window: window,
        first_pop: pop,
        pop,
        window,
    }
}

/// How many items a firing of a node takes at an input port.
fn pops_in_round(node: &Node, port: usize) -> u128
    ensures pops { result ≡ spec.pops_in_round (node_view node.now) port }
    ensures bound { result < 2 ^ 96 }
{
    match node {
        Node::Copy(_, fission) => {
            if port == 0 {
                u128::from(fission.pop)
            } else {
                0
            }
        }
        _ => pops_at(node, 1, port),
    }
}
