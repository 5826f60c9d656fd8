// Small graphs, and schedules of them.

ghost use Rattle.std.specs.Prelude.{All, IfOk};
ghost use Rattle.strc_balance.specs.Rates.{IsRated, equations_of};
ghost use Rattle.strc_fuse.specs.Laws.{CanBeFused};
ghost use Rattle.strc_elab_graph.specs.Connections.{IsConnected};
ghost use Rattle.strc_elab_graph.specs.NodeView.{graph_view};

use std::alloc::{AllocError, Global};
use std::process::Abort;
use std::test::Fail;
use strc_balance::balance::balance;
use strc_balance::counts::Counts;
use strc_elab_graph::condition::is_graph;
use strc_elab_graph::graph::{Channel, Graph, Node, Port, Splitter};
use strc_elab_graph::instance::Instance;
use strc_fuse::laws::schedules_can_be_fused;
use strc_lex::lexer::lex;
use strc_lex_names::name::StringLiteral;
use strc_parse::parse;
use strc_parse_tree::tree::StreamTree;
use strc_sched_orders::parts::Schedule;
use strc_sched_orders::scheduler::schedule;
use strc_startup::startup::startup;
use strc_work::lowering::lower;
use strc_work_meaning::constants::Constants;

/// What a node is. A port that no channel uses lets a node stand for a filter of any rates.
#[derive(Clone, Copy)]
pub(crate) enum Kind {
    Reader,
    Writer,
    Identity,
    /// It takes so many items at port 0 and at port 1, and gives them all.
    Join(u32, u32),
    /// It gives so many items at port 0 and at port 1, and takes them all.
    Split(u32, u32),
    /// The only filter of a text.
    Filter(&'static str),
}

/// The node and the port that a channel leaves, and the node and the port that it comes to.
pub(crate) type Ends = (u32, u32, u32, u32);

fn node_of(alloc: Global, kind: Kind) -> Result<Node, Fail> {
    match kind {
        Kind::Reader => Ok(Node::FileReader(StringLiteral::new(Vec::new(alloc)))),
        Kind::Writer => Ok(Node::FileWriter(StringLiteral::new(Vec::new(alloc)))),
        Kind::Identity => Ok(Node::Identity),
        Kind::Join(first, second) => Ok(Node::Joiner(Vec::from_slice(alloc, &[first, second])?)),
        Kind::Split(first, second) => {
            let weights = Vec::from_slice(alloc, &[first, second])?;
            Ok(Node::Splitter(Splitter::Roundrobin(weights)))
        }
        Kind::Filter(text) => filter_of(alloc, text),
    }
}

/// The only filter of a text, without a name.
fn filter_of(alloc: Global, text: &str) -> Result<Node, Fail> {
    let tokens = lex(alloc, text.as_bytes())?;
    let program = parse(alloc, &tokens)?;
    let [only] = program.declarations.as_slice() else {
        return Err(Fail::from("several streams"));
    };
    let StreamTree::Filter(filter) = &only.stream else {
        return Err(Fail::from("a pipeline"));
    };
    match lower(alloc, filter, &Constants::new(alloc)) {
        Ok(code) => Ok(Node::Filter(Instance { name: None, code })),
        Err(_) => Err(Fail::from("lower")),
    }
}

/// The graph of these nodes and channels, with so many items on the last channel, where the nodes
/// from `first` up to `next` are a feedback loop.
pub(crate) fn graph_of(
    rt: &impl Abort,
    alloc: Global,
    kinds: &[Kind],
    ends: &[Ends],
    items: usize,
    (first, next): (u32, u32),
) -> Result<Graph, Fail> {
    let mut nodes = Vec::new(alloc);
    let mut outer_loops = Vec::new(alloc);
    for (place, kind) in kinds.iter().enumerate() {
        nodes.push(node_of(alloc, *kind)?)?;
        let inside = first as usize <= place && place < next as usize;
        outer_loops.push(if inside { Some(first) } else { None })?;
    }
    let channels = channels_of(alloc, ends, items)?;
    let joined = is_graph(&nodes, &channels, &outer_loops);
    assert!(rt; joined, "a channel without a port");
    Ok(Graph::new(nodes, channels, outer_loops))
}

/// The channels, with so many items on the last one.
fn channels_of(alloc: Global, ends: &[Ends], items: usize) -> Result<Vec<Channel>, AllocError> {
    let mut channels = Vec::new(alloc);
    for (place, (from, output, to, input)) in ends.iter().enumerate() {
        let count = if place + 1 == ends.len() { items } else { 0 };
        channels.push(Channel {
            source: Port {
                node: *from,
                port: *output,
            },
            target: Port {
                node: *to,
                port: *input,
            },
            enqueued: Vec::from_elem(alloc, 0, count)?,
        })?;
    }
    Ok(channels)
}

/// How often the nodes of a graph fire in a round, and its schedule.
pub(crate) fn planned(alloc: Global, graph: &Graph) -> Result<(Counts, Schedule), Fail>
    requires rated { All IsRated (equations_of (graph_view graph.now)) }
    requires connected { IsConnected (graph_view graph.now) }
    ensures { IfOk result (λ plan. CanBeFused (graph_view graph.now) plan.1) }
{
    let Ok(round) = balance(alloc, graph) else {
        return Err(Fail::from("no counts of a round"));
    };
    let Ok(before) = startup(alloc, graph, &round) else {
        return Err(Fail::from("no counts of start-up"));
    };
    schedules_can_be_fused();
    match schedule(alloc, graph, &before, &round) {
        Ok(schedule) => Ok((round, schedule)),
        Err(_) => Err(Fail::from("no schedule")),
    }
}
