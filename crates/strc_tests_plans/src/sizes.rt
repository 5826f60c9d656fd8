// The sizes of buffers while given orders fire, in a graph in which a filter fires as two copies.

ghost use Rattle.std.specs.Prelude.{◌≡◌, ◌<◌, All, IsTrue};
ghost use Rattle.strc_sched_orders.specs.Peaks.{HasNodes};

use crate::small_graphs::Kind::{Reader, Writer};
use crate::small_graphs::{ends_of, graph_of, node_of, row_of, shown};
use std::alloc::{AllocError, Global};
use std::process::Abort;
use std::test::Fail;
use strc_elab_graph::graph::{Copied, Fission, Graph, Node};
use strc_elab_graph::instance::Instance;
use strc_parse_tree::tree::{FilterTree, ItemType, Member};
use strc_sched_orders::buffer_sizes::sizes;
use strc_sched_orders::error::ScheduleError;
use strc_sched_orders::unit::Unit;
use strc_work::lowering::lower;
use strc_work_meaning::constants::Constants;

/// A source, a scatter, two copies, a gather and a sink.
const CHANNELS: &str = "0.0-1.0 1.0-2.0 1.1-3.0 2.0-4.0 3.0-4.1 4.0-5.0";

/// The filter pushes one item, pops one and looks at three; of its four firings a round each copy
/// has two.
const FISSION: Fission = Fission {
    ways: 2,
    firings: 2,
    pop: 1,
    window: 3,
    push: 1,
};

/// A row a line: for each channel a number from before and its items, the units of a round, each
/// with its turns and its nodes, and the answer: the sizes of the buffers.
const CASES: &str = "\
# Of the two items that are there and four that come the scatter gives each copy four.
0 0 0 0 0 0|2 0 0 0 0 0|4*0 1*1 2*2 2*3 1*4 4*5=6 4 4 2 2 4
0 0 0 0 0 0|2 0 0 0 0 0|4*0 1*1 2*2.3 1*4 4*5=6 4 4 2 2 4
0 0 0 0 0 0|2 0 0 0 0 0|1*0.0.0.0.1.2.3.3.2.4.5.5.5.5=6 4 4 2 2 4
0 0 0 0 0 0|2 0 0 0 0 0|=2 0 0 0 0 0
# Numbers from before count.
7 0 9 1 2 3|2 0 0 0 0 0|4*0 1*1 2*2 2*3 1*4 4*5=7 4 9 2 2 4
# Items that no firings leave there.
0 0 0 0 0 0|3 1 0 3 0 0|4*0 1*1 2*2 2*3 1*4 4*5=7 5 4 5 2 4
# 16,777,216 items are the limit.
0 0 0 0 0 0|2 0 0 0 0 16777212|4*0 1*1 2*2 2*3 1*4 4*5=6 4 4 2 2 16777216
0 0 0 0 0 0|2 0 0 0 0 16777213|4*0 1*1 2*2 2*3 1*4 4*5=too many items on channel 5
0 0 16777217 0 0 0|2 0 0 0 0 16777213|4*0 1*1 2*2 2*3 1*4 4*5=too many items on channel 2
# Nodes that fire more often than in any round of a schedule: the source 8,000,000 times, while the
# scatter takes what comes and gives each copy as much.
0 0 0 0 0 0|2 0 0 0 0 0|4000000*0 1000000*1 4000000*0 1000000*1=4000002 8000000 8000000 0 0 0
0 0 0 0 0 0|0 0 0 0 0 0|3000000*0 750000*1 3000000*2=3000000 3000000 3000000 3000000 0 0
0 0 0 0 0 0|0 0 0 0 0 0|16777216*0 4194304*1=16777216 16777216 16777216 0 0 0
0 0 0 0 0 0|0 0 0 0 0 0|16777216*0 4194304*1 4*0 1*1=too many items on channel 1
0 0 0 0 0 0|0 0 0 0 0 0|16777217*0=too many items on channel 0
# The sink takes more than 2^32 items, before the gather gives any.
0 0 0 0 0 0|2 0 0 0 0 0|4294967295*5 1*5 1*4=2 0 0 0 0 0
0 0 0 0 0 0|2 0 0 0 0 0|4294967295*5 1*5 1073741825*4=2 0 0 0 0 4
0 0 0 0 0 0|2 0 0 0 0|4*0=outside the condition
0 0 0 0 0 0|2 0 0 0 0 0|1*6=outside the condition
";

/// A scatter of these takes nearly 2^96 items with a firing.
const WIDE: Fission = Fission {
    ways: u32::MAX,
    firings: u32::MAX,
    pop: u32::MAX,
    window: u32::MAX,
    push: 1,
};

/// A copy of the filter. What it does plays no part.
fn copy_of(alloc: Global) -> Result<Node, Fail> {
    let mut members = Vec::new(alloc);
    members.push(Member::Work(Vec::new(alloc), Vec::new(alloc)))?;
    let tree = FilterTree {
        input: ItemType::Int,
        output: ItemType::Int,
        members,
    };
    match lower(alloc, &tree, &Constants::new(alloc)) {
        Ok(code) => Ok(Node::Copy(Copied::Filter(Instance { name: None, code }), FISSION)),
        Err(_) => Err(Fail::from("lower")),
    }
}

/// The graph.
fn split_graph(rt: &impl Abort, alloc: Global) -> Result<Graph, Fail> {
    let mut nodes = Vec::new(alloc);
    nodes.push(node_of(alloc, Reader)?)?;
    nodes.push(Node::Scatter(FISSION))?;
    nodes.push(copy_of(alloc)?)?;
    nodes.push(copy_of(alloc)?)?;
    nodes.push(Node::Gather(FISSION))?;
    nodes.push(node_of(alloc, Writer)?)?;
    Ok(graph_of(rt, alloc, nodes, &ends_of(alloc, CHANNELS)?, 0)?)
}

/// Whether these nodes are some of so many.
fn are_below(nodes: &[u32], size: usize) -> bool
    ensures { IsTrue result → All (λ node. node < size) nodes.now }
{
    for node in nodes {
        if *node as usize >= size {
            return false;
        }
    }
    true
}

/// Whether units are of so many nodes.
fn have_nodes(units: &[Unit], size: usize) -> bool
    ensures { IsTrue result → All (HasNodes size) units.now }
{
    for unit in units {
        if !are_below(&unit.nodes, size) {
            return false;
        }
    }
    true
}

/// The sizes as a text, or why there are none.
fn answer_of(
    alloc: Global,
    graph: &Graph,
    before: &[u32],
    fill: &[u32],
    round: &[Unit],
) -> Result<String, AllocError> {
    let channels = graph.channels().len();
    if before.len() != channels || fill.len() != channels {
        return format!(in alloc; "outside the condition");
    }
    if !have_nodes(round, graph.nodes().len()) {
        return format!(in alloc; "outside the condition");
    }
    match sizes(alloc, graph, before, fill, round) {
        Ok(sizes) => shown(alloc, &sizes),
        Err(ScheduleError::NoMemory) => Err(AllocError),
        Err(error) => format!(in alloc; "{error}"),
    }
}

/// The numbers of a text, of which each is followed by this.
fn numbers_of(alloc: Global, text: &str, end: char) -> Result<Vec<u32>, Fail> {
    let mut numbers = Vec::new(alloc);
    for word in text.split(end) {
        let number: Option<u32> = word.parse().ok();
        numbers.push(number.ok_or("no number")?)?;
    }
    Ok(numbers)
}

/// The units of a text.
fn units_of(alloc: Global, text: &str) -> Result<Vec<Unit>, Fail> {
    let mut units = Vec::new(alloc);
    for word in text.split_whitespace() {
        let (turns, nodes) = word.split_once("*").ok_or("no unit")?;
        let turns: Option<u32> = turns.parse().ok();
        units.push(Unit {
            turns: turns.ok_or("no turns")?,
            nodes: numbers_of(alloc, nodes, '.')?,
        })?;
    }
    Ok(units)
}

#[test]
fn sizes_of_a_split_graph(rt: HostRuntime) -> Result<(), Fail> {
    let alloc = rt.alloc();
    let graph = split_graph(&rt, alloc)?;
    for line in CASES.lines() {
        let Some((given, expected)) = row_of(line)? else {
            continue;
        };
        let (before, given) = given.split_once("|").ok_or("no items")?;
        let (fill, units) = given.split_once("|").ok_or("no units")?;
        let (before, fill) = (
            numbers_of(alloc, before, ' ')?,
            numbers_of(alloc, fill, ' ')?,
        );
        let units = units_of(alloc, units)?;
        assert_eq!(rt;
            answer_of(alloc, &graph, &before, &fill, &units)?
                .as_str()
                .trim_end(),
            expected,
            "{line}"
        );
    }
    Ok(())
}

// A scatter fires 2^32 - 1 times before the source does: its items fit into 128 bits. With twice as
// many firings they don't.
#[test]
fn sizes_past_128_bits(rt: HostRuntime) -> Result<(), Fail> {
    let alloc = rt.alloc();
    let mut nodes = Vec::new(alloc);
    nodes.push(node_of(alloc, Reader)?)?;
    nodes.push(Node::Scatter(WIDE))?;
    let graph = graph_of(&rt, alloc, nodes, &ends_of(alloc, "0.0-1.0")?, 0)?;
    let units = units_of(alloc, "4294967295*1 1*0")?;
    let sizes = answer_of(alloc, &graph, &[3], &[0], &units)?;
    assert_eq!(rt; sizes.as_str().trim_end(), "3");
    let units = units_of(alloc, "4294967295*1 4294967295*1 1*0")?;
    assert!(rt; answer_of(alloc, &graph, &[3], &[0], &units).is_err());
    Ok(())
}
