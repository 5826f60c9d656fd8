// Rounds after fusion.

ghost use Rattle.std.specs.Prelude.{All, IfOk};
ghost use Rattle.strc_balance.specs.Rates.{IsRated, equations_of};
ghost use Rattle.strc_fuse.specs.Laws.{CanBeFused};
ghost use Rattle.strc_elab_graph.specs.Connections.{IsConnected};
ghost use Rattle.strc_elab_graph.specs.NodeView.{graph_view};

use std::alloc::{AllocError, Global};
use std::process::Abort;
use std::test::Fail;
use strc_balance::balance::balance;
use strc_balance::condition::can_balance;
use strc_elab_graph::condition::is_graph;
use strc_elab_graph::graph::{Channel, Graph, Node, Port, Splitter};
use strc_fuse::fuse::fuse;
use strc_fuse::laws::schedules_can_be_fused;
use strc_lex_names::name::StringLiteral;
use strc_sched_orders::parts::Schedule;
use strc_sched_orders::scheduler::schedule;
use strc_sched_orders::unit::Unit;
use strc_startup::startup::startup;

/// What a node is. A port that no channel uses lets a node stand for a filter of any rates.
#[derive(Clone, Copy)]
enum Kind {
    Reader,
    Writer,
    Identity,
    /// It takes so many items at port 0 and at port 1, and gives them all.
    Join(u32, u32),
    /// It gives so many items at port 0 and at port 1, and takes them all.
    Split(u32, u32),
}

/// The node and the port that a channel leaves, and the node and the port that it comes to.
type Ends = (u32, u32, u32, u32);

/// A reader, a node that gives two items for one, one that takes three, and a writer.
const ROW: [Kind; 4] = [
    Kind::Reader,
    Kind::Join(1, 1),
    Kind::Split(1, 2),
    Kind::Writer,
];

const ROW_CHANNELS: [Ends; 3] = [(0, 0, 1, 0), (1, 0, 2, 0), (2, 0, 3, 0)];

/// Two nodes, a feedback loop of four, in which an item is enqueued, and another node.
const LOOP: [Kind; 7] = [
    Kind::Reader,
    Kind::Identity,
    Kind::Join(1, 1),
    Kind::Identity,
    Kind::Split(1, 1),
    Kind::Identity,
    Kind::Writer,
];

const LOOP_CHANNELS: [Ends; 7] = [
    (0, 0, 1, 0),
    (1, 0, 2, 0),
    (2, 0, 3, 0),
    (3, 0, 4, 0),
    (4, 0, 6, 0),
    (4, 1, 5, 0),
    (5, 0, 2, 1),
];

/// The threshold, the units of the row's round, each with its turns and its nodes, and the sizes.
const ROW_CASES: [(u32, &str); 5] = [
    (0, "3*0 3*1 2*2 2*3 : 3 6 2"),
    (1, "3*0 3*1 2*2 2*3 : 3 6 2"),
    (2, "3*0.1 2*2.3 : 1 6 1"),
    (8, "1*0.1.0.1.0.1.2.2 2*3 : 1 6 2"),
    (1000, "1*0.1.0.1.0.1.2.2.3.3 : 1 6 2"),
];

/// Rows of the graph with a loop, whose nodes stay as they are.
const LOOP_CASES: [(u32, &str); 3] = [
    (0, "1*0 1*1 1*2 2*3 1*4 1*5 1*6 : 1 1 2 2 1 1 1"),
    (2, "1*0.1 1*2 2*3 1*4 1*5 1*6 : 1 1 2 2 1 1 1"),
    (1000, "1*0.1 1*2 2*3 1*4 1*5 1*6 : 1 1 2 2 1 1 1"),
];

fn node_of(alloc: Global, kind: Kind) -> Result<Node, AllocError> {
    match kind {
        Kind::Reader => Ok(Node::FileReader(StringLiteral::new(Vec::new(alloc)))),
        Kind::Writer => Ok(Node::FileWriter(StringLiteral::new(Vec::new(alloc)))),
        Kind::Identity => Ok(Node::Identity),
        Kind::Join(first, second) => { Ok(Node::Joiner(Vec::from_slice(alloc, &[first, second])?)) }
        Kind::Split(first, second) => {
            let weights = Vec::from_slice(alloc, &[first, second])?;
            Ok(Node::Splitter(Splitter::Roundrobin(weights)))
        }
    }
}

/// The graph of these nodes and channels, with so many items on the last channel, where the nodes
/// from `first` up to `next` are a feedback loop.
fn graph_of(
    rt: &impl Abort,
    alloc: Global,
    kinds: &[Kind],
    ends: &[Ends],
    items: usize,
    (first, next): (u32, u32),
) -> Result<Graph, AllocError> {
    let mut nodes = Vec::new(alloc);
    let mut outer_loops = Vec::new(alloc);
    for (place, kind) in kinds.iter().enumerate() {
        nodes.push(node_of(alloc, *kind)?)?;
        let inside = first as usize <= place && place < next as usize;
        outer_loops.push(if inside { Some(first) } else { None })?;
    }
    let mut channels = Vec::new(alloc);
    for (place, (from, output, to, input)) in ends.iter().enumerate() {
        let count = if place + 1 == ends.len() { items } else { 0 };
        channels.push(Channel {
            source: Port {
                node: *from,
                port: *output,
            },
            target: Port {
                node: *to,
                port: *input,
            },
            enqueued: Vec::from_elem(alloc, 0, count)?,
        })?;
    }
    let joined = is_graph(&nodes, &channels, &outer_loops);
    assert!(rt; joined, "a channel without a port");
    Ok(Graph::new(nodes, channels, outer_loops))
}

/// The units of a round, each with its turns and its nodes, and the sizes of the buffers.
fn text_of(alloc: Global, schedule: &Schedule) -> Result<String, AllocError> {
    let mut text = String::new(alloc);
    for unit in schedule.round() {
        text.push_str(&unit_text(alloc, unit)?)?;
    }
    text.push_str(":")?;
    for size in schedule.sizes() {
        text.push_str(&format!(in alloc; " {size}")?)?;
    }
    Ok(text)
}

fn unit_text(alloc: Global, unit: &Unit) -> Result<String, AllocError> {
    let mut text = format!(in alloc; "{}*", unit.turns)?;
    for (place, node) in unit.nodes.iter().enumerate() {
        if place > 0 {
            text.push_str(".")?;
        }
        text.push_str(&format!(in alloc; "{node}")?)?;
    }
    text.push_str(" ")?;
    Ok(text)
}

/// The schedule of a graph.
fn planned(alloc: Global, graph: &Graph) -> Result<Schedule, Fail>
    requires rated { All IsRated (equations_of (graph_view graph.now)) }
    requires connected { IsConnected (graph_view graph.now) }
    ensures { IfOk result (CanBeFused (graph_view graph.now)) }
{
    let Ok(round) = balance(alloc, graph) else {
        return Err(Fail::from("no counts of a round"));
    };
    let Ok(before) = startup(alloc, graph, &round) else {
        return Err(Fail::from("no counts of start-up"));
    };
    schedules_can_be_fused();
    match schedule(alloc, graph, &before, &round) {
        Ok(schedule) => Ok(schedule),
        Err(_) => Err(Fail::from("no schedule")),
    }
}

/// The fused schedule of a graph as a text.
fn answer_of(alloc: Global, graph: &Graph, threshold: u32) -> Result<String, Fail> {
    let Ok(true) = can_balance(alloc, graph) else {
        return Err(Fail::from("outside the condition"));
    };
    let mut schedule = planned(alloc, graph)?;
    match fuse(alloc, graph, &mut schedule, threshold) {
        Ok(()) => Ok(text_of(alloc, &schedule)?),
        Err(error) => Ok(format!(in alloc; "{error}")?),
    }
}

#[test]
fn row(rt: HostRuntime) -> Result<(), Fail> {
    let alloc = rt.alloc();
    let graph = graph_of(&rt, alloc, &ROW, &ROW_CHANNELS, 0, (0, 0))?;
    for (threshold, expected) in ROW_CASES {
        assert_eq!(rt; answer_of(alloc, &graph, threshold)?.as_str(), expected);
    }
    Ok(())
}

#[test]
fn round_a_loop(rt: HostRuntime) -> Result<(), Fail> {
    let alloc = rt.alloc();
    let graph = graph_of(&rt, alloc, &LOOP, &LOOP_CHANNELS, 1, (2, 6))?;
    for (threshold, expected) in LOOP_CASES {
        assert_eq!(rt; answer_of(alloc, &graph, threshold)?.as_str(), expected);
    }
    Ok(())
}
