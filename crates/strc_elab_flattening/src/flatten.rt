// From a stream to its flat graph.

ghost use Rattle.std.specs.Prelude.{◌≡◌, ◌≤◌, length, map, IfOk};
ghost use Rattle.strc_elab_graph.specs.Connections.{IsConnected};
ghost use Rattle.strc_elab_graph.specs.Graphs.{node_name};
ghost use Rattle.strc_elab_graph.specs.NodeView.{node_view, graph_view, node_names, parts_of};
ghost use Rattle.strc_elab_graph.specs.FlatGraphs.{IsProgram};
ghost use Rattle.strc_elab_stream.specs.Types.{IsWellTyped, IsClosed};
ghost use Rattle.strc_elab_stream.specs.View.{stream_view};
ghost use Rattle.strc_elab_stream.specs.Flattening.{IsFlat, tree_of, nodes_of, outer_loops};
ghost use Rattle.strc_elab_stream.specs.Wires.{wired};
ghost use Rattle.strc_elab_flattening.specs.HasNodes.{HasNodes};
ghost use Rattle.strc_elab_flattening.specs.Assembly.{IsAssembled};
ghost use Rattle.strc_elab_flattening.specs.Verdicts.{IsFlattened, node_limit};

use crate::channels::wire;
use crate::connection::are_connected;
use crate::limits::check;
use crate::loops::push_loops;
use crate::nodes::collect;
use crate::parts::has_nodes;
use std::alloc::Global;
use strc_elab_graph::condition::is_graph;
use strc_elab_graph::graph::{Channel, Graph, Node};
use strc_elab_statements::error::{ElabError, ElabErrorKind};
use strc_elab_stream::stream::Stream;

/// The flat graph of a stream: its nodes in preorder, and the channels between their ports, in
/// order of the ports that they leave.
///
/// It is refused where it has more than 4,096 nodes, more than one `FileReader`, two `FileWriter`s
/// of one file, or where its nodes aren't all connected, tested in this order; and where memory
/// runs out.
pub fn flatten(alloc: Global, stream: &Stream) -> Result<Graph, ElabError>
    ensures verdict { IsWellTyped (stream_view stream.now)
        → IsFlattened (stream_view stream.now) result }
    ensures graph { IsWellTyped (stream_view stream.now)
        → IfOk result (λ graph. IsFlat (stream_view stream.now) (graph_view graph)) }
    ensures connected { IsWellTyped (stream_view stream.now)
        → IfOk result (λ graph. IsConnected (graph_view graph)) }
    ensures program { IsClosed (stream_view stream.now)
        → IfOk result (λ graph. IsProgram (tree_of (stream_view stream.now)) (graph_view graph)) }
    ensures nodes { IfOk result (λ graph. map node_view graph.nodes
        ≡ nodes_of (stream_view stream.now)) }
    ensures names { IfOk result (λ graph. node_names graph
        ≡ map node_name (nodes_of (stream_view stream.now))) }
    ensures loops { IfOk result (λ graph. graph.outer_loops
        ≡ outer_loops 0 (stream_view stream.now)) }
{
    let mut nodes = Vec::new(alloc);
    collect(alloc, stream, &mut nodes)?;
    match check(alloc, &nodes) {
        // Such a stream isn't well typed.
        Ok(()) if !has_nodes(stream) => Err(ElabError::from(ElabErrorKind::Disconnected)),
        Ok(()) => graph_of(alloc, stream, nodes),
        Err(refusal) => Err(refusal),
    }
}

/// The graph of a stream's nodes, which its channels join.
fn graph_of(alloc: Global, stream: &Stream, nodes: Vec<Node>) -> Result<Graph, ElabError>
    requires nodes { map node_view nodes.items ≡ nodes_of (stream_view stream.now) }
    requires few { length nodes.items ≤ node_limit }
    requires parts { HasNodes (stream_view stream.now) }
    ensures { IsAssembled (wired (stream_view stream.now)) result }
{
    let mut channels = Vec::new(alloc);
    wire(alloc, 0, stream, None, &mut channels)?;
    let mut loops = Vec::new(alloc);
    push_loops(0, stream, &mut loops)?;
    connected_graph(alloc, nodes, channels, loops)
}

/// The graph of these parts, if they are a graph's, whose nodes are connected.
fn connected_graph(
    alloc: Global,
    nodes: Vec<Node>,
    channels: Vec<Channel>,
    outer_loops: Vec<Option<u32>>,
) -> Result<Graph, ElabError>
    requires few { length nodes.items ≤ node_limit }
    ensures { IsAssembled
        (graph_view (parts_of nodes.items channels.items outer_loops.items)) result }
{
    if !is_graph(&nodes, &channels, &outer_loops) {
        return Err(ElabError::from(ElabErrorKind::Disconnected));
    }
    if !are_connected(alloc, nodes.len() as u32, &channels)? {
        return Err(ElabError::from(ElabErrorKind::Disconnected));
    }
    Ok(Graph::new(nodes, channels, outer_loops))
}
