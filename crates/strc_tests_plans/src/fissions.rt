// Graphs and schedules after fission.

use crate::fission_graphs::{Ends, Kind, graph_of, planned};
use std::alloc::{AllocError, Global};
use std::test::Fail;
use strc_balance::condition::can_balance;
use strc_elab_graph::graph::{Channel, Graph};
use strc_fiss::fission::fission;
use strc_fiss::split::{Origin, Split};
use strc_sched_orders::unit::Unit;

/// A reader, an identity that fires four times in a round, a node that gives three items for four,
/// and a writer.
const ROW: [Kind; 4] = [
    Kind::Reader,
    Kind::Identity,
    Kind::Split(3, 1),
    Kind::Writer,
];

const ROW_CHANNELS: [Ends; 3] = [(0, 0, 1, 0), (1, 0, 2, 0), (2, 0, 3, 0)];

/// How many copies there may be, and after fission the nodes, the channels, the units of a round,
/// what each node is a part of, with its first firing, and the sizes.
const ROW_CASES: [(u32, &str); 4] = [
    (
        1,
        "FileReader Identity split FileWriter | 0.0-1.0 1.0-2.0 2.0-3.0 | 4*0 4*1 1*2 3*3 | \
         0:0 1:0 2:0 3:0 | 4 4 3",
    ),
    (
        2,
        "FileReader scatter Identity Identity gather split FileWriter | \
         0.0-1.0 1.0-2.0 1.1-3.0 2.0-4.0 3.0-4.1 4.0-5.0 5.0-6.0 | \
         4*0 1*1 2*2 2*3 1*4 1*5 3*6 | 0:0 1:0 1:0 1:2 1:0 2:0 3:0 | 4 2 2 2 2 4 3",
    ),
    // Three copies can't share four firings evenly.
    (
        3,
        "FileReader scatter Identity Identity gather split FileWriter | \
         0.0-1.0 1.0-2.0 1.1-3.0 2.0-4.0 3.0-4.1 4.0-5.0 5.0-6.0 | \
         4*0 1*1 2*2 2*3 1*4 1*5 3*6 | 0:0 1:0 1:0 1:2 1:0 2:0 3:0 | 4 2 2 2 2 4 3",
    ),
    (
        64,
        "FileReader scatter Identity Identity Identity Identity gather split FileWriter | \
         0.0-1.0 1.0-2.0 1.1-3.0 1.2-4.0 1.3-5.0 2.0-6.0 3.0-6.1 4.0-6.2 5.0-6.3 6.0-7.0 \
         7.0-8.0 | 4*0 1*1 1*2 1*3 1*4 1*5 1*6 1*7 3*8 | 0:0 1:0 1:0 1:1 1:2 1:3 1:0 2:0 3:0 | \
         4 1 1 1 1 1 1 1 1 4 3",
    ),
];

/// A filter that looks at three items, and one that counts its firings, in the identity's place.
const PEEKS: &str = "int->int filter Peeks {
    work push 1 pop 1 peek 3 { push(pop() + peek(1)); }
}";

const COUNTS: &str = "int->int filter Counts {
    int fired;
    work push 1 pop 1 { fired++; push(pop() + fired); }
}";

/// The text of the filter, and what comes of it in two ways: two items are read ahead for the one
/// that peeks, and what has a state stays whole.
const FILTER_CASES: [(&str, &str); 2] = [
    (
        PEEKS,
        "FileReader scatter filter filter gather split FileWriter | \
         0.0-1.0 1.0-2.0 1.1-3.0 2.0-4.0 3.0-4.1 4.0-5.0 5.0-6.0 | \
         4*0 1*1 2*2 2*3 1*4 1*5 3*6 | 0:0 1:0 1:0 1:2 1:0 2:0 3:0 | 6 4 4 2 2 4 3",
    ),
    (
        COUNTS,
        "FileReader filter split FileWriter | 0.0-1.0 1.0-2.0 2.0-3.0 | 4*0 4*1 1*2 3*3 | \
         0:0 1:0 2:0 3:0 | 4 4 3",
    ),
];

/// Two nodes, a feedback loop of four, in which an item is enqueued, and another node: the identity
/// of the loop fires twice in a round, and stays whole.
const LOOP: [Kind; 7] = [
    Kind::Reader,
    Kind::Identity,
    Kind::Join(1, 1),
    Kind::Identity,
    Kind::Split(1, 1),
    Kind::Identity,
    Kind::Writer,
];

const LOOP_CHANNELS: [Ends; 7] = [
    (0, 0, 1, 0),
    (1, 0, 2, 0),
    (2, 0, 3, 0),
    (3, 0, 4, 0),
    (4, 0, 6, 0),
    (4, 1, 5, 0),
    (5, 0, 2, 1),
];

const LOOP_CASE: &str = "FileReader Identity join Identity split Identity FileWriter | \
     0.0-1.0 1.0-2.0 2.0-3.0 3.0-4.0 4.0-6.0 4.1-5.0 5.0-2.1 | \
     1*0 1*1 1*2 2*3 1*4 1*5 1*6 | 0:0 1:0 2:0 3:0 4:0 5:0 6:0 | 1 1 2 2 1 1 1";

/// An identity, the reader that gives to it, with one item enqueued, and a node that takes two
/// items: the identity fires twice in a round, once in each of two units, and stays whole.
const TURNED: [Kind; 3] = [Kind::Identity, Kind::Reader, Kind::Split(1, 1)];

const TURNED_CHANNELS: [Ends; 2] = [(0, 0, 2, 0), (1, 0, 0, 0)];

const TURNED_CASE: &str = "Identity FileReader split | 0.0-2.0 1.0-0.0 | 1*0 2*1 1*0 1*2 | \
     0:0 1:0 2:0 | 2 2";

fn nodes_text(alloc: Global, graph: &Graph) -> Result<String, Fail> {
    let mut text = String::new(alloc);
    for node in 0..graph.nodes().len() {
        let Ok(name) = str::from_utf8(graph.name(node)) else {
            return Err(Fail::from("a name that is no text"));
        };
        text.push_str(name)?;
        text.push_str(" ")?;
    }
    Ok(text)
}

fn channels_text(alloc: Global, channels: &[Channel]) -> Result<String, AllocError> {
    let mut text = String::from_str(alloc, "|")?;
    for channel in channels {
        let from = channel.source;
        let to = channel.target;
        let ends = format!(in alloc; " {}.{}-{}.{}", from.node, from.port, to.node, to.port)?;
        text.push_str(&ends)?;
    }
    text.push_str(" |")?;
    Ok(text)
}

fn units_text(alloc: Global, units: &[Unit]) -> Result<String, AllocError> {
    let mut text = String::new(alloc);
    for unit in units {
        text.push_str(&format!(in alloc; " {}*", unit.turns)?)?;
        for node in &unit.nodes {
            text.push_str(&format!(in alloc; "{node}")?)?;
        }
    }
    text.push_str(" |")?;
    Ok(text)
}

fn origins_text(alloc: Global, origins: &[Origin]) -> Result<String, AllocError> {
    let mut text = String::new(alloc);
    for origin in origins {
        text.push_str(&format!(in alloc; " {}:{}", origin.node, origin.first)?)?;
    }
    text.push_str(" |")?;
    Ok(text)
}

fn text_of(alloc: Global, split: &Split) -> Result<String, Fail> {
    let mut text = nodes_text(alloc, split.graph())?;
    text.push_str(&channels_text(alloc, split.graph().channels())?)?;
    text.push_str(&units_text(alloc, split.schedule().round())?)?;
    text.push_str(&origins_text(alloc, split.origins())?)?;
    for size in split.schedule().sizes() {
        text.push_str(&format!(in alloc; " {size}")?)?;
    }
    Ok(text)
}

/// A graph and its schedule after fission in at most so many ways, as a text.
fn answer_of(alloc: Global, graph: &Graph, ways: u32) -> Result<String, Fail> {
    let Ok(true) = can_balance(alloc, graph) else {
        return Err(Fail::from("outside the condition"));
    };
    let (round, schedule) = planned(alloc, graph)?;
    match fission(alloc, graph, &round, &schedule, ways) {
        Ok(split) => text_of(alloc, &split),
        Err(error) => Ok(format!(in alloc; "{error}")?),
    }
}

#[test]
fn row(rt: HostRuntime) -> Result<(), Fail> {
    let alloc = rt.alloc();
    let graph = graph_of(&rt, alloc, &ROW, &ROW_CHANNELS, 0, (0, 0))?;
    for (ways, expected) in ROW_CASES {
        assert_eq!(rt; answer_of(alloc, &graph, ways)?.as_str(), expected);
    }
    Ok(())
}

#[test]
fn filters(rt: HostRuntime) -> Result<(), Fail> {
    let alloc = rt.alloc();
    for (text, expected) in FILTER_CASES {
        let kinds = [
            Kind::Reader,
            Kind::Filter(text),
            Kind::Split(3, 1),
            Kind::Writer,
        ];
        let graph = graph_of(&rt, alloc, &kinds, &ROW_CHANNELS, 0, (0, 0))?;
        assert_eq!(rt; answer_of(alloc, &graph, 2)?.as_str(), expected);
    }
    Ok(())
}

#[test]
fn round_a_loop(rt: HostRuntime) -> Result<(), Fail> {
    let alloc = rt.alloc();
    let graph = graph_of(&rt, alloc, &LOOP, &LOOP_CHANNELS, 1, (2, 6))?;
    assert_eq!(rt; answer_of(alloc, &graph, 64)?.as_str(), LOOP_CASE);
    Ok(())
}

#[test]
fn in_two_units(rt: HostRuntime) -> Result<(), Fail> {
    let alloc = rt.alloc();
    let graph = graph_of(&rt, alloc, &TURNED, &TURNED_CHANNELS, 1, (0, 0))?;
    assert_eq!(rt; answer_of(alloc, &graph, 2)?.as_str(), TURNED_CASE);
    Ok(())
}

#[test]
fn too_many_nodes(rt: HostRuntime) -> Result<(), Fail> {
    let alloc = rt.alloc();
    let kinds = [
        Kind::Reader,
        Kind::Identity,
        Kind::Split(4999, 1),
        Kind::Writer,
    ];
    let graph = graph_of(&rt, alloc, &kinds, &ROW_CHANNELS, 0, (0, 0))?;
    assert_eq!(rt; answer_of(alloc, &graph, 5000)?.as_str(), "too many nodes");
    Ok(())
}
