// The orders of small graphs and the sizes of their buffers, and which refusal there is.

use crate::small_graphs::{ends_of, graph_of, nodes_of, row_of, shown};
use std::alloc::{AllocError, Global};
use std::test::Fail;
use strc_balance::balance::balance;
use strc_balance::condition::can_balance;
use strc_elab_graph::graph::Graph;
use strc_sched_orders::error::ScheduleError;
use strc_sched_orders::scheduler::schedule;
use strc_sched_orders::unit::Unit;
use strc_startup::startup::startup;

/// A row a line: nodes, channels, how many items are on the last channel, and the answer: the units
/// of a round, each with its turns and its node, and the sizes of the buffers.
const CASES: &str = "\
reader join:1:1 split:1:2 writer|0.0-1.0 1.0-2.0 2.0-3.0|0=3*0 3*1 2*2 2*3 : 3 6 2
reader split:2:1 identity identity join:2:1 writer \
    |0.0-1.0 1.0-2.0 1.1-3.0 2.0-4.0 3.0-4.1 4.0-5.0|0=3*0 1*1 2*2 1*3 1*4 3*5 : 3 2 1 2 1 3
reader join:1:1 identity split:1:1 identity writer \
    |0.0-1.0 1.0-2.0 2.0-3.0 3.0-5.0 3.1-4.0 4.0-1.1|1=1*0 1*1 2*2 1*3 1*4 1*5 : 1 2 2 1 1 1
reader join:1:1 identity split:1:1 identity writer \
    |0.0-1.0 1.0-2.0 2.0-3.0 3.0-5.0 3.1-4.0 4.0-1.1|0=no order of the firings of a round exists
# A loop with a single item fires once at a time, with two items twice.
duplicate identity split:1:2|0.0-1.0 0.1-2.0 1.0-0.0|1=1*0 1*1 1*0 1*1 1*0 1*1 1*2 : 1 3 1
duplicate identity split:1:2|0.0-1.0 0.1-2.0 1.0-0.0|2=2*0 2*1 1*0 1*1 1*2 : 2 3 2
duplicate identity split:1:2|0.0-1.0 0.1-2.0 1.0-0.0|0=no order of the firings of a round exists
# Enqueued items count.
reader writer|0.0-1.0|2=1*0 1*1 : 3
# Graphs that no text means: no channels, two at one port, and one from a node to itself.
identity||0=1*0 :
reader writer|0.0-1.0 0.0-1.0|0=1*0 1*1 : 1 1
identity|0.0-0.0|1=1*0 : 1
identity|0.0-0.0|0=no order of the firings of a round exists
# 16,777,216 items are the limit.
reader join:1:16777215 split:1:16777215 writer \
    |0.0-1.0 1.0-2.0 2.0-3.0|0=1*0 1*1 1*2 1*3 : 1 16777216 1
reader join:1:16777216 split:1:16777216 writer \
    |0.0-1.0 1.0-2.0 2.0-3.0|0=too many items on channel 1
";

/// The schedule of a graph as a text, or why there is none.
pub(crate) fn answer_of(alloc: Global, graph: &Graph) -> Result<String, AllocError> {
    match can_balance(alloc, graph) {
        Ok(true) => {}
        Ok(false) => return format!(in alloc; "outside the condition"),
        Err(_) => return Err(AllocError),
    }
    let round = match balance(alloc, graph) {
        Ok(counts) => counts,
        Err(error) => return format!(in alloc; "{error}"),
    };
    let before = match startup(alloc, graph, &round) {
        Ok(counts) => counts,
        Err(error) => return format!(in alloc; "{error}"),
    };
    match schedule(alloc, graph, &before, &round) {
        Ok(schedule) => {
            let mut text = units_of(alloc, schedule.round())?;
            text.push_str(": ")?;
            text.push_str(&shown(alloc, schedule.sizes())?)?;
            Ok(text)
        }
        Err(ScheduleError::NoMemory) => Err(AllocError),
        Err(error) => format!(in alloc; "{error}"),
    }
}

/// Units of one node, each with its turns and its node.
fn units_of(alloc: Global, units: &[Unit]) -> Result<String, AllocError> {
    let mut text = String::new(alloc);
    for unit in units {
        if let Some(node) = unit.nodes.first() {
            text.push_str(&format!(in alloc; "{}*{node} ", unit.turns)?)?;
        }
    }
    Ok(text)
}

#[test]
fn schedules(rt: HostRuntime) -> Result<(), Fail> {
    let alloc = rt.alloc();
    for line in CASES.lines() {
        let Some((given, expected)) = row_of(line)? else {
            continue;
        };
        let (nodes, given) = given.split_once("|").ok_or("no channels")?;
        let (ends, items) = given.split_once("|").ok_or("no items")?;
        let (nodes, ends) = (nodes_of(alloc, nodes)?, ends_of(alloc, ends)?);
        let items: Option<usize> = items.parse().ok();
        let graph = graph_of(&rt, alloc, nodes, &ends, items.ok_or("no number of items")?)?;
        assert_eq!(rt;
            answer_of(alloc, &graph)?.as_str().trim_end(),
            expected,
            "{line}"
        );
    }
    Ok(())
}
