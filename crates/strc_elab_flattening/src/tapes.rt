// Which writers write to one file.

ghost use Rattle.std.specs.Prelude.{IfOk, map};
ghost use Rattle.strc_elab_graph.specs.NodeView.{node_view};
ghost use Rattle.strc_elab_flattening.specs.Verdicts.{FindsRepeat};

use indexmap::IndexMap;
use std::alloc::Global;
use strc_elab_graph::graph::Node;
use strc_lex_names::memory::NoMemory;

/// The lowest writer that has the bytes of an earlier one between its quotes.
pub(crate) fn first_repeat(alloc: Global, nodes: &[Node]) -> Result<Option<usize>, NoMemory>
    ensures { IfOk result (FindsRepeat (map node_view nodes.now)) }
{
    let mut writers = IndexMap::new(alloc);
    for (number, node) in nodes.iter().enumerate() {
        if let Node::FileWriter(text) = node {
            if writers.insert(text.as_bytes(), number)?.is_some() {
                return Ok(Some(number));
            }
        }
    }
    Ok(None)
}
