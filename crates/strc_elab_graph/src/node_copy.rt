// Nodes and what they are made of, copied.

ghost use Rattle.std.specs.Prelude.{◌≡◌, IfOk};
ghost use Rattle.strc_elab_graph.specs.NodeView.{node_view, copied_view, splitter_view};

use crate::graph::{Copied, Node, Splitter};
use std::alloc::{AllocError, Global};
use strc_lex_names::memory::NoMemory;

/// An equal node.
pub fn copy_node(alloc: Global, node: &Node) -> Result<Node, NoMemory>
    ensures { IfOk result (λ copy. node_view copy ≡ node_view node.now) }
{
    match node {
        Node::Filter(instance) => Ok(Node::Filter(instance.copy(alloc)?)),
        Node::Identity => Ok(Node::Identity),
        Node::FileReader(text) => Ok(Node::FileReader(text.copy()?)),
        Node::FileWriter(text) => Ok(Node::FileWriter(text.copy()?)),
        Node::Splitter(splitter) => Ok(Node::Splitter(copy_splitter(alloc, splitter)?)),
        Node::Joiner(weights) => Ok(Node::Joiner(weights.to_vec(alloc)?)),
        Node::Scatter(fission) => Ok(Node::Scatter(*fission)),
        Node::Copy(copied, fission) => Ok(Node::Copy(copy_copied(alloc, copied)?, *fission)),
        Node::Gather(fission) => Ok(Node::Gather(*fission)),
    }
}

/// What is copied, once more.
fn copy_copied(alloc: Global, copied: &Copied) -> Result<Copied, NoMemory>
    ensures { IfOk result (λ copy. copied_view copy ≡ copied_view copied.now) }
{
    match copied {
        Copied::Filter(instance) => Ok(Copied::Filter(instance.copy(alloc)?)),
        Copied::Identity => Ok(Copied::Identity),
    }
}

/// An equal splitter.
pub fn copy_splitter(alloc: Global, splitter: &Splitter) -> Result<Splitter, AllocError>
    ensures { IfOk result (λ copy. splitter_view copy ≡ splitter_view splitter.now) }
{
    match splitter {
        Splitter::Duplicate(carried) => Ok(Splitter::Duplicate(carried.to_vec(alloc)?)),
        Splitter::Roundrobin(weights) => Ok(Splitter::Roundrobin(weights.to_vec(alloc)?)),
    }
}
