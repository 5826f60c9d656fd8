// The condition of a flat graph, as a test.

ghost use Rattle.std.specs.Prelude.{◌↔◌, ◌<◌, map, All, IsTrue};
ghost use Rattle.strc_elab_graph.specs.Graphs.{IsGraph, JoinsPorts, inputs_at, outputs_at};
ghost use Rattle.strc_elab_graph.specs.NodeView.{parts_of, graph_view, node_view, channel_view};

use crate::graph::{Channel, Node, Port, input_ports, output_ports};

/// Whether these nodes, channels and outermost loops are a graph's: each channel leaves an output
/// port of a node and ends at an input port of one, and each node has its outermost loop or none.
pub fn is_graph(nodes: &[Node], channels: &[Channel], outer_loops: &[Option<u32>]) -> bool
    ensures { IsTrue result
        ↔ IsGraph (graph_view (parts_of nodes.now channels.now outer_loops.now)) }
{
    outer_loops.len() == nodes.len() && join_ports(nodes, channels)
}

/// Whether each channel joins ports.
fn join_ports(nodes: &[Node], channels: &[Channel]) -> bool
    ensures { IsTrue result
        ↔ All (JoinsPorts (map node_view nodes.now)) (map channel_view channels.now) }
{
    for channel in channels {
        if !joins_ports(nodes, channel) {
            return false;
        }
    }
    true
}

/// Whether a channel joins ports.
fn joins_ports(nodes: &[Node], channel: &Channel) -> bool
    ensures { IsTrue result ↔ JoinsPorts (map node_view nodes.now) (channel_view channel.now) }
{
    is_output(nodes, channel.source) && is_input(nodes, channel.target)
}

/// Whether this is an output port of a node.
fn is_output(nodes: &[Node], port: Port) -> bool
    ensures { IsTrue result ↔ port.port < outputs_at (map node_view nodes.now) port.node }
{
    let node = port.node as usize;
    node < nodes.len() && (port.port as usize) < output_ports(&nodes[node])
}

/// Whether this is an input port of a node.
fn is_input(nodes: &[Node], port: Port) -> bool
    ensures { IsTrue result ↔ port.port < inputs_at (map node_view nodes.now) port.node }
{
    let node = port.node as usize;
    node < nodes.len() && (port.port as usize) < input_ports(&nodes[node])
}
