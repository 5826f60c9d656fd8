// The tapes of stages, and the words that start-up gives.

ghost use Rattle.std.specs.Prelude.{◌≡◌, ◌<◌, [], IfOk, length, map, slice_set};
ghost use Rattle.std.specs.Vec.{vec_items};
ghost use Rattle.strc_elab_graph.specs.NodeView.{node_view};
ghost use Rattle.strc_elab_graph.specs.Tapes.{tape_nodes};
ghost use Rattle.strc_sched_laws.specs.Machine.{words_at};
ghost use Rattle.strc_sched_machine.specs.Running.{words_of};
ghost use Rattle.strc_stage_cut.specs.Tapes.{tapes_in};

use std::alloc::{AllocError, Global};
use std::mem;
use strc_elab_graph::graph::Node;
use strc_elab_graph::tapes::gives_words;
use strc_sched_rings::range::is_within;
use strc_stage_steps::TapeOf;
use strc_work_meaning::word::Word;

/// Of these tapes those of the nodes from `first` up to `next`.
pub(crate) fn tapes_within(
    alloc: Global,
    tapes: &[usize],
    first: usize,
    next: usize,
) -> Result<Vec<TapeOf>, AllocError>
    ensures { IfOk result (λ within. within.items ≡ tapes_in first next 0 tapes.now) }
{
    let mut within = Vec::new(alloc);
    for tape in 0..tapes.len() {
        let node = tapes[tape];
        if is_within(first, next, node) {
            within.push(TapeOf { tape, node })?;
        }
    }
    Ok(within)
}

/// The words of the nodes that give some, taken out of those of all nodes.
pub(crate) fn tape_words(
    alloc: Global,
    nodes: &[Node],
    words: Vec<Vec<Word>>,
) -> Result<Vec<Vec<Word>>, AllocError>
    requires { length words.items ≡ length nodes.now }
    ensures { IfOk result (λ own. map vec_items own.items
        ≡ map (words_at (words_of words.items)) (tape_nodes (map node_view nodes.now))) }
{
    let mut left = words;
    let mut own = Vec::new(alloc);
    for node in 0..nodes.len() {
        if gives_words(&nodes[node]) {
            own.push(taken_words(alloc, &mut left, node))?;
        }
    }
    Ok(own)
}

/// The words of a node, taken out of those of all nodes.
fn taken_words(alloc: Global, left: &mut Vec<Vec<Word>>, node: usize) -> Vec<Word>
    requires { node < length left.old.items }
    ensures taken { result.items ≡ words_at (words_of left.old.items) node }
    ensures left { words_of left.new.items ≡ slice_set (words_of left.old.items) node [] }
{
    mem::replace(&mut left[node], Vec::new(alloc))
}
