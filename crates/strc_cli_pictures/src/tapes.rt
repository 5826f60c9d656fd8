// The tapes of nodes.

ghost use Rattle.std.specs.Prelude.{◌≡◌, IfOk, map};
ghost use Rattle.strc_elab_graph.specs.NodeView.{node_view};
ghost use Rattle.strc_cli_pictures.specs.Pictures.{named_tapes, tape_numbers, tape_count};

use std::alloc::{AllocError, Global};
use strc_elab_graph::graph::Node;
use strc_elab_graph::tapes::gives_words;

/// The number of each node's tape, where there are several.
pub(crate) fn tapes_of(alloc: Global, nodes: &[Node]) -> Result<Vec<Option<usize>>, AllocError>
    ensures { IfOk result (λ tapes. tapes.items ≡ named_tapes (map node_view nodes.now)) }
{
    if count_tapes(nodes) > 1 {
        number_tapes(alloc, nodes)
    } else {
        Ok(Vec::new(alloc))
    }
}

/// How many nodes have a tape.
fn count_tapes(nodes: &[Node]) -> usize
    ensures { result ≡ tape_count (map node_view nodes.now) }
{
    let mut count = 0;
    for node in nodes {
        if gives_words(node) {
            count += 1;
        }
    }
    count
}

/// The number of each node's tape.
fn number_tapes(alloc: Global, nodes: &[Node]) -> Result<Vec<Option<usize>>, AllocError>
    ensures { IfOk result (λ tapes. tapes.items ≡ tape_numbers 0 (map node_view nodes.now)) }
{
    let mut tapes = Vec::with_capacity(alloc, nodes.len())?;
    let mut next: usize = 0;
    for node in nodes {
        if gives_words(node) {
            tapes.push(Some(next))?;
            next += 1;
        } else {
            tapes.push(None)?;
        }
    }
    Ok(tapes)
}
