// Which nodes may be fused.

ghost use Rattle.std.specs.Prelude.{◌≡◌, ◌<◌, All, MatchBool, length};
ghost use Rattle.strc_elab_graph.specs.NodeView.{graph_view};
ghost use Rattle.strc_elab_dataflow.specs.FusedUnits.{AreFree};
ghost use Rattle.strc_fuse.specs.Units.{is_free};

use strc_elab_graph::graph::Graph;
use strc_elab_graph::rates::fires_by_rounds;

/// Whether all nodes of a list may be fused.
pub(crate) fn are_free(graph: &Graph, nodes: &[u32]) -> bool
    requires { All (λ node. node < length graph.now.nodes) nodes.now }
    ensures { MatchBool result (AreFree (is_free (graph_view graph.now)) nodes.now)
        (¬ AreFree (is_free (graph_view graph.now)) nodes.now) }
{
    for node in nodes {
        if !node_is_free(graph, *node as usize) {
            return false;
        }
    }
    true
}

/// Whether a node may be fused: it is outside feedback loops, and no scatter, copy or gather.
fn node_is_free(graph: &Graph, node: usize) -> bool
    requires { node < length graph.now.nodes }
    ensures { result ≡ is_free (graph_view graph.now) node }
{
    match graph.outer_loop(node) {
        Some(_) => false,
        None => !fires_by_rounds(&graph.nodes()[node]),
    }
}
