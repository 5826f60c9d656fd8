// The words that graphs with scatters, copies and gathers write, each worked out by hand: copies
// that share a round's firings write what the node that they copy would.

ghost use Rattle.std.specs.Prelude.{◌≡◌, IfOk, map, true};
ghost use Rattle.strc_elab_graph.specs.NodeView.{copied_view, node_view};
ghost use Rattle.strc_work_meaning.specs.Filters as filters;
ghost use Rattle.strc_sched_rings.specs.Circuits.{IsReady, circuit_view};
ghost use Rattle.strc_sched_machine.specs.Actors.{AreStartable, CanStart, CanStartCopy};
ghost use Rattle.strc_sched_machine.specs.Actors.{CanStartNode};
ghost use Rattle.strc_sched_machine.specs.Batches.{IsOrderOf};

use crate::preworks::instance_of;
use crate::small_graphs::{Kind, ends_of, graph_of, node_of};
use std::alloc::{AllocError, Global};
use std::process::Abort;
use std::test::Fail;
use strc_elab_graph::graph::{Copied, Fission, Graph, Node};
use strc_sched_machine::batches::Order;
use strc_sched_machine::machine::Machine;
use strc_sched_orders::unit::Unit;
use strc_sched_rings::circuit::Circuit;
use strc_work::firing::Fire;
use strc_work_code::code::Code;
use strc_work_meaning::word::Word;

/// It adds three items.
const SUMS: &str = "int->int filter Sums {
    work push 1 pop 1 peek 3 { push(peek(0) + peek(1) + peek(2)); pop(); }
}";

/// Two copies of it, with two firings each in a round.
const SUMS_IN_TWO: Fission = Fission {
    ways: 2,
    firings: 2,
    pop: 1,
    window: 3,
    push: 1,
};

/// Three copies of an identity, with one firing each.
const ITEMS_IN_THREE: Fission = Fission {
    ways: 3,
    firings: 1,
    pop: 1,
    window: 1,
    push: 1,
};

/// What is copied.
fn copied_of(alloc: Global, text: Option<&str>) -> Result<Copied, Fail> {
    match text {
        Some(text) => Ok(Copied::Filter(instance_of(alloc, text)?)),
        None => Ok(Copied::Identity),
    }
}

/// A reader, a scatter, copies, a gather, and a writer.
fn split_graph(
    rt: &impl Abort,
    alloc: Global,
    text: Option<&str>,
    fission: Fission,
    channels: &str,
) -> Result<Graph, Fail> {
    let mut nodes = Vec::new(alloc);
    nodes.push(node_of(alloc, Kind::Reader)?)?;
    nodes.push(Node::Scatter(fission))?;
    for _copy in 0..fission.ways {
        nodes.push(Node::Copy(copied_of(alloc, text)?, fission))?;
    }
    nodes.push(Node::Gather(fission))?;
    nodes.push(node_of(alloc, Kind::Writer)?)?;
    Ok(graph_of(rt, alloc, nodes, &ends_of(alloc, channels)?, 0)?)
}

/// Whether each node starts without a fault.
fn all_start(alloc: Global, nodes: &[Node]) -> bool
    ensures { result ≡ true → AreStartable (map node_view nodes.now) }
{
    for node in nodes {
        if !node_starts(alloc, node) {
            return false;
        }
    }
    true
}

fn node_starts(alloc: Global, node: &Node) -> bool
    ensures { result ≡ true → CanStartNode (node_view node.now) }
{
    match node {
        Node::Filter(instance) => code_starts(alloc, &instance.code),
        Node::Copy(copied, _) => copy_starts(alloc, copied),
        Node::Identity
        | Node::FileReader(_)
        | Node::FileWriter(_)
        | Node::Splitter(_)
        | Node::Joiner(_)
        | Node::Scatter(_)
        | Node::Gather(_) => true,
    }
}

fn copy_starts(alloc: Global, copied: &Copied) -> bool
    ensures { result ≡ true → CanStartCopy (copied_view copied.now) }
{
    match copied {
        Copied::Filter(instance) => code_starts(alloc, &instance.code),
        Copied::Identity => true,
    }
}

fn code_starts(alloc: Global, code: &Code) -> bool
    ensures { result ≡ true → CanStart (filters.filter_of code.now) }
{
    match code.start(alloc) {
        Ok(_state) => true,
        Err(_) => false,
    }
}

/// An order of units, each a node that fires so often.
fn order_of(alloc: Global, circuit: &Circuit, units: &[(u32, u32)]) -> Result<Order, AllocError>
    requires ready { IsReady circuit.now }
    ensures { IfOk result (IsOrderOf (circuit_view circuit.now)) }
{
    let mut order = Vec::new(alloc);
    for (turns, node) in units {
        order.push(Unit {
            turns: *turns,
            nodes: Vec::from_slice(alloc, &[*node])?,
        })?;
    }
    Order::new(alloc, circuit, order)
}

/// What the last node writes in start-up and so many rounds, over the items from 1 on.
fn written(
    alloc: Global,
    graph: &Graph,
    sizes: &[u32],
    startup: &[(u32, u32)],
    round: &[(u32, u32)],
    rounds: u32,
) -> Result<String, Fail> {
    if !all_start(alloc, graph.nodes()) {
        return Err(Fail::from("a fault at the start"));
    }
    let input = Vec::from_iter(alloc, 1..65)?;
    let circuit = Circuit::new(alloc, graph, &input)?;
    let mut machine = Machine::new(alloc, graph, &circuit, sizes)?;
    let (startup, round) = (
        order_of(alloc, &circuit, startup)?,
        order_of(alloc, &circuit, round)?,
    );
    if machine.fire_order(&circuit, &startup).is_err() {
        return Err(Fail::from("a fault in start-up"));
    }
    for _round in 0..rounds {
        if machine.fire_order(&circuit, &round).is_err() {
            return Err(Fail::from("a fault"));
        }
    }
    let words = machine.into_words();
    Ok(values_of(alloc, words.last().ok_or("no node")?)?)
}

/// Words as a text, each after a space.
fn values_of(alloc: Global, words: &[Word]) -> Result<String, AllocError> {
    let mut text = String::new(alloc);
    for word in words {
        text.push_str(&format!(in alloc; " {}", word.value)?)?;
    }
    Ok(text)
}

/// In each round copy 0 adds four items and copy 1 four more, of which two are the same: 1 2 3 4
/// and 3 4 5 6 in the first one, 5 6 7 8 and 7 8 9 10 in the second.
#[test]
fn copies_share_windows(rt: HostRuntime) -> Result<(), Fail> {
    let alloc = rt.alloc();
    let channels = "0.0-1.0 1.0-2.0 1.1-3.0 2.0-4.0 3.0-4.1 4.0-5.0";
    let graph = split_graph(&rt, alloc, Some(SUMS), SUMS_IN_TWO, channels)?;
    let round = [(4, 0), (1, 1), (2, 2), (2, 3), (1, 4), (4, 5)];
    let text = written(alloc, &graph, &[6, 4, 4, 2, 2, 4], &[(2, 0)], &round, 2)?;
    assert_eq!(rt; text.as_str(), " 6 9 12 15 18 21 24 27");
    Ok(())
}

/// Copies of an identity hand items on in their order.
#[test]
fn copies_hand_on(rt: HostRuntime) -> Result<(), Fail> {
    let alloc = rt.alloc();
    let channels = "0.0-1.0 1.0-2.0 1.1-3.0 1.2-4.0 2.0-5.0 3.0-5.1 4.0-5.2 5.0-6.0";
    let graph = split_graph(&rt, alloc, None, ITEMS_IN_THREE, channels)?;
    let round = [(3, 0), (1, 1), (1, 2), (1, 3), (1, 4), (1, 5), (3, 6)];
    let text = written(alloc, &graph, &[3, 1, 1, 1, 1, 1, 1, 3], &[], &round, 2)?;
    assert_eq!(rt; text.as_str(), " 1 2 3 4 5 6");
    Ok(())
}
