// How many nodes a graph may have, and how many that take the input.

ghost use Rattle.std.specs.Prelude.{◌≡◌, map, count_by};
ghost use Rattle.strc_elab_graph.specs.Graphs as graphs;
ghost use Rattle.strc_elab_graph.specs.NodeView.{node_view};
ghost use Rattle.strc_elab_flattening.specs.Verdicts.{IsVerdict};

use crate::tapes::first_repeat;
use std::alloc::Global;
use strc_elab_graph::graph::{NODE_LIMIT, Node};
use strc_elab_statements::error::{ElabError, ElabErrorKind};

/// Whether a graph can have these nodes, by the first test that fails.
pub(crate) fn check(alloc: Global, nodes: &[Node]) -> Result<(), ElabError>
    ensures { IsVerdict (map node_view nodes.now) (Unit {0}) result }
{
    if nodes.len() > NODE_LIMIT as usize {
        return Err(ElabError::from(ElabErrorKind::NodeLimit));
    }
    if count_inputs(nodes) > 1 {
        return Err(ElabError::from(ElabErrorKind::TwoInputs));
    }
    match first_repeat(alloc, nodes)? {
        Some(node) => Err(ElabError::from(ElabErrorKind::TapeTwice { node })),
        None => Ok(()),
    }
}

/// How many nodes take the program's input.
fn count_inputs(nodes: &[Node]) -> usize
    ensures { result ≡ count_by graphs.reads_input (map node_view nodes.now) }
{
    let mut count = 0;
    for node in nodes {
        if reads_input(node) {
            count += 1;
        }
    }
    count
}

/// Whether a node takes the program's input.
fn reads_input(node: &Node) -> bool
    ensures { result ≡ graphs.reads_input (node_view node.now) }
{
    match node {
        Node::FileReader(_) => true,
        Node::Filter(_)
        | Node::Identity
        | Node::FileWriter(_)
        | Node::Splitter(_)
        | Node::Joiner(_)
        | Node::Scatter(_)
        | Node::Copy(_, _)
        | Node::Gather(_) => false,
    }
}
