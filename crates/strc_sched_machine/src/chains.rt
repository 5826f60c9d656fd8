// Which batches of an order fire by hand: those that take all that the one before pushes, and only
// that, or whose pushes the next one takes so.

use crate::batches::{Batch, BatchList, Kind};
use std::alloc::{AllocError, Global};
use strc_elab_graph::graph::Node;
use strc_sched_rings::circuit::Circuit;
use strc_work_meaning::body::Body;

/// Of each list which of its batches fire by hand; none where too few do.
pub(crate) fn hands_of(
    alloc: Global,
    circuit: &Circuit,
    lists: &[BatchList],
) -> Result<Vec<Vec<bool>>, AllocError> {
    let mut hands = Vec::with_capacity(alloc, lists.len())?;
    for list in lists {
        hands.push(chained(alloc, circuit, &list.batches)?)?;
    }
    Ok(hands)
}

/// Of each batch whether it fires by hand; none where too few do.
fn chained(alloc: Global, circuit: &Circuit, batches: &[Batch]) -> Result<Vec<bool>, AllocError> {
    let mut marks = Vec::with_capacity(alloc, batches.len())?;
    let mut marked: usize = 0;
    for place in 0..batches.len() {
        let takes = place > 0 && hands_on(circuit, &batches[place - 1], &batches[place]);
        let gives = place + 1 < batches.len()
            && hands_on(circuit, &batches[place], &batches[place + 1]);
        if takes || gives {
            marked = marked.saturating_add(1);
        }
        marks.push(takes || gives)?;
    }
    // Beside those that fire by hand another one costs more, about what three of them save.
    if marked == 0 || marked / 3 < marks.len().saturating_sub(marked) {
        marks.clear();
    }
    Ok(marks)
}

/// Whether two batches can fire by hand, and the second takes what the first one pushes.
fn hands_on(circuit: &Circuit, first: &Batch, second: &Batch) -> bool {
    let (Some(output), Some(input)) = (first.output, second.input) else {
        return false;
    };
    match (flow_of(circuit, first), flow_of(circuit, second)) {
        (Some(first), Some(second)) => output == input && first.pushes == second.pops,
        _ => false,
    }
}

/// How many items a batch takes, and how many it pushes.
#[derive(Clone, Copy)]
struct Flow {
    pops: u32,
    pushes: u32,
}

/// Those of a batch that can fire by hand: of an identity, or of one firing of a filter that looks
/// at no item that it doesn't take.
fn flow_of(circuit: &Circuit, batch: &Batch) -> Option<Flow> {
    if let Kind::Identity { .. } = batch.kind {
        return Some(Flow {
            pops: batch.turns,
            pushes: batch.turns,
        });
    }
    let node = batch.node as usize;
    if batch.turns != 1 || node >= circuit.nodes.len() {
        return None;
    }
    let Node::Filter(instance) = &circuit.nodes[node] else {
        return None;
    };
    let rates = instance.code.rates(Body::Work);
    if rates.peek > rates.pop || rates.pop < 0 || rates.push < 0 {
        return None;
    }
    Some(Flow {
        pops: rates.pop as u32,
        pushes: rates.push as u32,
    })
}
