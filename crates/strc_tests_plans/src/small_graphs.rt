// Graphs as texts: what their nodes are and what their channels join. And their counts as texts.
//
// The nodes of a graph are words, as `reader split:2:1 identity writer`; its channels are pairs of
// ports, each by its node and its number, as `1.0-2.0`.

use std::alloc::{AllocError, Global};
use std::process::Abort;
use std::test::Fail;
use strc_balance::balance::balance;
use strc_balance::condition::can_balance;
use strc_balance::error::BalanceError;
use strc_elab_graph::condition::is_graph;
use strc_elab_graph::graph::{Channel, Fission, Graph, Node, Port, Splitter};
use strc_lex_names::name::StringLiteral;

/// What a node is. A port that no channel uses lets a node stand for a filter of any rates.
#[derive(Clone, Copy)]
pub(crate) enum Kind {
    Reader,
    Writer,
    Identity,
    /// It takes so many items at port 0 and at port 1, and gives them all.
    Join(u32, u32),
    /// It gives so many items at port 0 and at port 1, and takes them all.
    Split(u32, u32),
    /// It gives each item at both ports.
    Duplicate,
    Gather,
}

/// The node and the port that a channel leaves, and the node and the port that it comes to.
pub(crate) type Ends = (u32, u32, u32, u32);

/// A node of this kind.
pub(crate) fn node_of(alloc: Global, kind: Kind) -> Result<Node, AllocError> {
    match kind {
        Kind::Reader => Ok(Node::FileReader(StringLiteral::new(Vec::new(alloc)))),
        Kind::Writer => Ok(Node::FileWriter(StringLiteral::new(Vec::new(alloc)))),
        Kind::Identity => Ok(Node::Identity),
        Kind::Join(first, second) => joiner(alloc, first, second),
        Kind::Split(first, second) => splitter(alloc, first, second),
        Kind::Duplicate => duplicate(alloc),
        Kind::Gather => Ok(Node::Gather(Fission {
            ways: 2,
            firings: 1,
            pop: 1,
            window: 1,
            push: 1,
        })),
    }
}

fn joiner(alloc: Global, first: u32, second: u32) -> Result<Node, AllocError> {
    Ok(Node::Joiner(Vec::from_slice(alloc, &[first, second])?))
}

fn splitter(alloc: Global, first: u32, second: u32) -> Result<Node, AllocError> {
    let weights = Vec::from_slice(alloc, &[first, second])?;
    Ok(Node::Splitter(Splitter::Roundrobin(weights)))
}

fn duplicate(alloc: Global) -> Result<Node, AllocError> {
    let carried = Vec::from_elem(alloc, true, 2)?;
    Ok(Node::Splitter(Splitter::Duplicate(carried)))
}

/// A channel with these enqueued items.
fn channel_of(alloc: Global, ends: Ends, enqueued: &[i32]) -> Result<Channel, AllocError> {
    Ok(Channel {
        source: Port {
            node: ends.0,
            port: ends.1,
        },
        target: Port {
            node: ends.2,
            port: ends.3,
        },
        enqueued: Vec::from_slice(alloc, enqueued)?,
    })
}

/// The graph of these nodes and channels, with these items on the last channel.
pub(crate) fn graph_with(
    rt: &impl Abort,
    alloc: Global,
    nodes: Vec<Node>,
    ends: &[Ends],
    enqueued: &[i32],
) -> Result<Graph, AllocError> {
    let mut channels = Vec::new(alloc);
    for channel in 0..ends.len() {
        let items: &[i32] = if channel + 1 == ends.len() {
            enqueued
        } else {
            &[]
        };
        channels.push(channel_of(alloc, ends[channel], items)?)?;
    }
    let outer_loops = Vec::from_elem(alloc, None, nodes.len())?;
    let joined = is_graph(&nodes, &channels, &outer_loops);
    assert!(rt; joined, "a channel without a port");
    Ok(Graph::new(nodes, channels, outer_loops))
}

/// The graph of these nodes and channels, with so many items on the last channel.
pub(crate) fn graph_of(
    rt: &impl Abort,
    alloc: Global,
    nodes: Vec<Node>,
    ends: &[Ends],
    items: usize,
) -> Result<Graph, AllocError> {
    let enqueued = Vec::from_elem(alloc, 0, items)?;
    graph_with(rt, alloc, nodes, ends, &enqueued)
}

/// The counts of a graph, or why there are none.
pub(crate) fn answer_of(alloc: Global, graph: &Graph) -> Result<String, AllocError> {
    match can_balance(alloc, graph) {
        Ok(true) => {}
        Ok(false) => return format!(in alloc; "outside the condition"),
        Err(_) => return Err(AllocError),
    }
    match balance(alloc, graph) {
        Ok(counts) => shown(alloc, counts.as_slice()),
        Err(BalanceError::NoMemory) => Err(AllocError),
        Err(error) => format!(in alloc; "{error}"),
    }
}

/// Numbers with a space after each.
pub(crate) fn shown(alloc: Global, counts: &[u32]) -> Result<String, AllocError> {
    let mut text = String::new(alloc);
    for count in counts {
        text.push_str(&format!(in alloc; "{count} ")?)?;
    }
    Ok(text)
}

/// A number in a text.
fn number(text: Option<&str>) -> Option<u32> {
    text?.parse().ok()
}

/// What a node is, by its word.
fn kind_of(word: &str) -> Option<Kind> {
    let mut parts = word.split(':');
    let name = parts.next()?;
    match number(parts.next()) {
        Some(first) => dealing_kind(name, first, number(parts.next())?),
        None => plain_kind(name),
    }
}

fn dealing_kind(name: &str, first: u32, second: u32) -> Option<Kind> {
    if name == "join" {
        Some(Kind::Join(first, second))
    } else if name == "split" {
        Some(Kind::Split(first, second))
    } else {
        None
    }
}

fn plain_kind(name: &str) -> Option<Kind> {
    for (known, kind) in [
        ("reader", Kind::Reader),
        ("writer", Kind::Writer),
        ("identity", Kind::Identity),
        ("duplicate", Kind::Duplicate),
        ("gather", Kind::Gather),
    ] {
        if name == known {
            return Some(kind);
        }
    }
    None
}

/// The two ports of a channel.
fn pair_of(word: &str) -> Option<Ends> {
    let (source, target) = word.split_once("-")?;
    let (source, target) = (port_of(source)?, port_of(target)?);
    Some((source.0, source.1, target.0, target.1))
}

/// A port by its node and its number.
fn port_of(text: &str) -> Option<(u32, u32)> {
    let (node, port) = text.split_once(".")?;
    Some((number(Some(node))?, number(Some(port))?))
}

/// The nodes of a text.
pub(crate) fn nodes_of(alloc: Global, text: &str) -> Result<Vec<Node>, Fail> {
    let mut nodes = Vec::new(alloc);
    for word in text.split_whitespace() {
        let kind = kind_of(word).ok_or("no node")?;
        nodes.push(node_of(alloc, kind)?)?;
    }
    Ok(nodes)
}

/// The channels of a text.
pub(crate) fn ends_of(alloc: Global, text: &str) -> Result<Vec<Ends>, Fail> {
    let mut ends = Vec::new(alloc);
    for word in text.split_whitespace() {
        ends.push(pair_of(word).ok_or("no channel")?)?;
    }
    Ok(ends)
}

/// The items of a text.
pub(crate) fn items_of(alloc: Global, text: &str) -> Result<Vec<i32>, Fail> {
    let mut items = Vec::new(alloc);
    for word in text.split_whitespace() {
        let item: Option<i32> = word.parse().ok();
        items.push(item.ok_or("no item")?)?;
    }
    Ok(items)
}

/// The parts of a row: what is given, up to ` = `, and the answer. None of a note, which begins
/// with `#`.
pub(crate) fn row_of(line: &str) -> Result<Option<(&str, &str)>, Fail> {
    if line.starts_with("#") {
        return Ok(None);
    }
    Ok(Some(line.split_once("=").ok_or("no answer")?))
}
