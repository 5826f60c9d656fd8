// The nodes that give words.

ghost use Rattle.std.specs.Prelude.{◌≡◌, IfOk, map};
ghost use Rattle.strc_elab_graph.specs.Graphs as graphs;
ghost use Rattle.strc_elab_graph.specs.NodeView.{node_view, copied_view};
ghost use Rattle.strc_elab_graph.specs.Tapes.{tape_nodes};

use crate::graph::{Copied, Node};
use std::alloc::{AllocError, Global};

/// The nodes that give words, in order: one for each tape.
pub fn tape_list(alloc: Global, nodes: &[Node]) -> Result<Vec<usize>, AllocError>
    ensures { IfOk result (λ tapes. tapes.items ≡ tape_nodes (map node_view nodes.now)) }
{
    let mut tapes = Vec::new(alloc);
    for node in 0..nodes.len() {
        if gives_words(&nodes[node]) {
            tapes.push(node)?;
        }
    }
    Ok(tapes)
}

/// Whether a firing of a node can give words, so that it has a tape.
pub fn gives_words(node: &Node) -> bool
    ensures { result ≡ graphs.gives_words (node_view node.now) }
{
    match node {
        Node::Filter(instance) => instance.code.prints(),
        Node::Copy(copied, _) => copied_prints(copied),
        Node::FileWriter(_) => true,
        Node::Identity
        | Node::FileReader(_)
        | Node::Splitter(_)
        | Node::Joiner(_)
        | Node::Scatter(_)
        | Node::Gather(_) => false,
    }
}

/// Whether a firing of a copy can give words.
fn copied_prints(copied: &Copied) -> bool
    ensures { result ≡ graphs.copied_prints (copied_view copied.now) }
{
    match copied {
        Copied::Filter(instance) => instance.code.prints(),
        Copied::Identity => false,
    }
}
