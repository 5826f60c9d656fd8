// Graphs of a shape: how many nodes, and what their channels join.

use std::alloc::{AllocError, Global};
use std::fmt;
use std::fmt::{Display, Formatter, Write};
use strc_elab_graph::condition::is_graph;
use strc_elab_graph::graph::{Channel, Graph, Node, Port, Splitter};
use strc_lex_names::name::StringLiteral;

/// What a graph looks like. Its first three nodes raise the rate: each node after them fires
/// 1,000,000 times in a round.
#[derive(Clone, Copy)]
pub(crate) enum Shape {
    /// Identities in a row.
    Chain,
    /// A splitter, an identity on each of its sides, and a joiner.
    SplitJoin,
    /// Two rows, each node of the first giving its items to the next one and to one of the second.
    Ladder,
}

impl Display for Shape {
    fn fmt<W: Write>(&self, f: &mut Formatter<W>) -> fmt::Result {
        f.write_str(self.name())
    }
}

impl Shape {
    pub(crate) fn name(&self) -> &'static str {
        match self {
            Shape::Chain => "chain",
            Shape::SplitJoin => "split-join",
            Shape::Ladder => "ladder",
        }
    }
}

/// Nodes, and the channels between their ports.
#[derive(Drop)]
struct Parts {
    alloc: Global,
    nodes: Vec<Node>,
    channels: Vec<Channel>,
}

/// A port: of the node with this number, the port with this number.
type End = (u32, u32);

impl Parts {
    /// A channel without items.
    fn join(&mut self, source: End, target: End) -> Result<(), AllocError> {
        self.join_with(source, target, 0)
    }

    /// A channel with so many enqueued items.
    fn join_with(&mut self, source: End, target: End, items: usize) -> Result<(), AllocError> {
        self.channels.push(Channel {
            source: Port {
                node: source.0,
                port: source.1,
            },
            target: Port {
                node: target.0,
                port: target.1,
            },
            enqueued: Vec::from_elem(self.alloc, 0, items)?,
        })?;
        Ok(())
    }

    /// A node that takes so many items at port 0 and at port 1, and gives them all.
    fn add_joiner(&mut self, first: u32, second: u32) -> Result<(), AllocError> {
        let weights = Vec::from_slice(self.alloc, &[first, second])?;
        self.nodes.push(Node::Joiner(weights))?;
        Ok(())
    }
}

/// The graph of a shape with so many nodes; none where its channels wouldn't join ports.
pub(crate) fn graph_of(
    alloc: Global,
    shape: Shape,
    nodes: u32,
) -> Result<Option<Graph>, AllocError> {
    let mut parts = raised(alloc)?;
    match shape {
        Shape::Chain => chain(&mut parts, nodes)?,
        Shape::SplitJoin => split_join(&mut parts, nodes)?,
        Shape::Ladder => ladder(&mut parts, nodes)?,
    }
    graph_from(parts)
}

/// Two nodes in a loop that starts with a single item, so that each fires once at a time, 1,000,000
/// times in a round, and a sink that takes all; none where its channels wouldn't join ports.
pub(crate) fn circle(alloc: Global) -> Result<Option<Graph>, AllocError> {
    let mut parts = Parts {
        alloc,
        nodes: Vec::new(alloc),
        channels: Vec::new(alloc),
    };
    let carried = Vec::from_elem(alloc, true, 2)?;
    parts
        .nodes
        .push(Node::Splitter(Splitter::Duplicate(carried)))?;
    parts.nodes.push(Node::Identity)?;
    let sink = Vec::from_slice(alloc, &[1, 999_999])?;
    parts
        .nodes
        .push(Node::Splitter(Splitter::Roundrobin(sink)))?;
    parts.join((0, 0), (1, 0))?;
    parts.join((0, 1), (2, 0))?;
    parts.join_with((1, 0), (0, 0), 1)?;
    graph_from(parts)
}

/// The graph of these parts.
fn graph_from(parts: Parts) -> Result<Option<Graph>, AllocError> {
    let Parts {
        alloc,
        nodes,
        channels,
    } = parts;
    let outer_loops = Vec::from_elem(alloc, None, nodes.len())?;
    if is_graph(&nodes, &channels, &outer_loops) {
        Ok(Some(Graph::new(nodes, channels, outer_loops)))
    } else {
        Ok(None)
    }
}

/// A reader, and two nodes that each give 1,000 items for one: a joiner of whose ports one has no
/// channel.
fn raised(alloc: Global) -> Result<Parts, AllocError> {
    let mut parts = Parts {
        alloc,
        nodes: Vec::new(alloc),
        channels: Vec::new(alloc),
    };
    parts
        .nodes
        .push(Node::FileReader(StringLiteral::new(Vec::new(alloc))))?;
    parts.add_joiner(1, 999)?;
    parts.join((0, 0), (1, 0))?;
    parts.add_joiner(1, 999)?;
    parts.join((1, 0), (2, 0))?;
    Ok(parts)
}

fn chain(parts: &mut Parts, nodes: u32) -> Result<(), AllocError> {
    for node in 3..nodes {
        parts.nodes.push(Node::Identity)?;
        parts.join((node.saturating_sub(1), 0), (node, 0))?;
    }
    Ok(())
}

fn split_join(parts: &mut Parts, nodes: u32) -> Result<(), AllocError> {
    let sides = nodes.saturating_sub(5);
    let joiner = nodes.saturating_sub(1);
    let carried = Vec::from_elem(parts.alloc, true, sides as usize)?;
    parts
        .nodes
        .push(Node::Splitter(Splitter::Duplicate(carried)))?;
    parts.join((2, 0), (3, 0))?;
    for side in 0..sides {
        let node = side.saturating_add(4);
        parts.nodes.push(Node::Identity)?;
        parts.join((3, side), (node, 0))?;
        parts.join((node, 0), (joiner, side))?;
    }
    let weights = Vec::from_elem(parts.alloc, 1, sides as usize)?;
    parts.nodes.push(Node::Joiner(weights))?;
    Ok(())
}

fn ladder(parts: &mut Parts, nodes: u32) -> Result<(), AllocError> {
    let rungs = nodes.saturating_sub(4) / 2;
    for rung in 0..rungs {
        let left = rung.saturating_mul(2).saturating_add(3);
        let right = left.saturating_add(1);
        // The second row begins at the first rung: the port for a node before it has no channel.
        let carried = Vec::from_elem(parts.alloc, true, 2)?;
        parts
            .nodes
            .push(Node::Splitter(Splitter::Duplicate(carried)))?;
        parts.add_joiner(1, rung.saturating_add(1))?;
        let above = if rung == 0 { 2 } else { left.saturating_sub(2) };
        parts.join((above, 0), (left, 0))?;
        parts.join((left, 1), (right, 0))?;
        if rung > 0 {
            parts.join((right.saturating_sub(2), 0), (right, 1))?;
        }
    }
    let last = Vec::from_elem(parts.alloc, rungs.saturating_add(1), 1)?;
    parts
        .nodes
        .push(Node::Splitter(Splitter::Roundrobin(last)))?;
    let end = rungs.saturating_mul(2).saturating_add(3);
    parts.join((end.saturating_sub(1), 0), (end, 0))
}
