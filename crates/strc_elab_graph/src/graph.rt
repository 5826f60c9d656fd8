// A flat graph: nodes, and the channels between their ports.

ghost use Rattle.std.specs.Prelude.{◌≡◌};
ghost use Rattle.strc_elab_graph.specs.Graphs as graphs;
ghost use Rattle.strc_elab_graph.specs.NodeView.{node_view, copied_view};

use crate::instance::Instance;
use std::marker::Model;
use strc_lex_names::name::StringLiteral;
use strc_parse_tree::tree::ItemType;

/// How many nodes a program may have, and so how many filters.
pub const NODE_LIMIT: u32 = 4096;

/// A node: what fires.
pub enum Node {
    Filter(Instance),
    /// What comes in goes out, item by item.
    Identity,
    /// It gives the program's input; what is between its brackets.
    FileReader(StringLiteral),
    /// It writes each item; what is between its brackets.
    FileWriter(StringLiteral),
    Splitter(Splitter),
    /// It takes so many items of each port in turn.
    Joiner(Vec<u32>),
    /// It deals a round's windows of a node to the copies.
    Scatter(Fission),
    /// One of several copies of a node.
    Copy(Copied, Fission),
    /// It puts the copies' items in order.
    Gather(Fission),
}

impl Drop for Node {
    fn drop(self) {
        match self {
            Node::Filter(_)
            | Node::Identity
            | Node::FileReader(_)
            | Node::FileWriter(_)
            | Node::Splitter(_)
            | Node::Joiner(_)
            | Node::Scatter(_)
            | Node::Copy(_, _)
            | Node::Gather(_) => {}
        }
    }
}

/// What a copy is a copy of, and so how it fires.
pub enum Copied {
    Filter(Instance),
    /// The builtin that gives each item that comes in.
    Identity,
}

impl Drop for Copied {
    fn drop(self) {
        match self {
            Copied::Filter(_) | Copied::Identity => {}
        }
    }
}

/// How a splitter deals its items.
pub enum Splitter {
    /// Each item to each port that carries items; whether a port does.
    Duplicate(Vec<bool>),
    /// So many items to each port in turn.
    Roundrobin(Vec<u32>),
}

impl Drop for Splitter {
    fn drop(self) {
        match self {
            Splitter::Duplicate(_) | Splitter::Roundrobin(_) => {}
        }
    }
}

/// How a node's firings in a round are dealt to copies of it.
#[derive(Clone, Copy)]
pub struct Fission {
    /// How many copies there are.
    pub ways: u32,
    /// How often each fires in a round.
    pub firings: u32,
    /// How many items a firing pops.
    pub pop: u32,
    /// How many items it looks at.
    pub window: u32,
    /// How many items it pushes.
    pub push: u32,
}

/// An input or an output port of a node.
#[derive(Clone, Copy)]
pub struct Port {
    pub node: u32,
    pub port: u32,
}

/// What leaves an output port comes to an input port, after the items that are enqueued on it
/// before the first firing.
pub struct Channel {
    pub source: Port,
    pub target: Port,
    pub enqueued: Vec<i32>,
}

impl Drop for Channel {
    fn drop(self) {
        let Channel {
            source: _,
            target: _,
            enqueued: _,
        } = self;
    }
}

/// A flat graph.
pub struct Graph {
    nodes: Vec<Node>,
    channels: Vec<Channel>,
    outer_loops: Vec<Option<u32>>,
}

impl Drop for Graph {
    fn drop(self) {
        let Graph {
            nodes: _,
            channels: _,
            outer_loops: _,
        } = self;
    }
}

impl Model for Graph {
    ghost use Rattle.std.specs.Coded.{codes};
    ghost use Rattle.strc_elab_graph.specs.Graphs.{IsGraph};
    ghost use Rattle.strc_elab_graph.specs.NodeView.{GraphParts, parts_of, graph_view};
    ghost use Rattle.strc_elab_graph.specs.contracts.graph.Node as node;
    ghost use Rattle.strc_elab_graph.specs.contracts.graph.Channel as channel;

    ghost Value = { GraphParts };

    ghost coded = { Prim.hlevel (codes, node.the_row.coded, channel.the_row.coded) };

    ghost view = { λ g. parts_of g.nodes.items g.channels.items g.outer_loops.items };

    ghost invariant = { λ g. IsGraph (graph_view
        (parts_of g.nodes.items g.channels.items g.outer_loops.items)) };
}

impl Graph {
    ghost use Rattle.std.specs.Prelude.{◌<◌, length, Some, slice_get};
    ghost use Rattle.strc_elab_graph.specs.Graphs.{IsGraph};
    ghost use Rattle.strc_elab_graph.specs.NodeView.{parts_of, graph_view, node_names};

    /// The graph of these nodes and channels, and for each node the joiner of the outermost
    /// feedback loop that it is in.
    pub fn new(nodes: Vec<Node>, channels: Vec<Channel>, outer_loops: Vec<Option<u32>>) -> Graph
        requires { IsGraph (graph_view (parts_of nodes.items channels.items outer_loops.items)) }
        ensures { result ≡ parts_of nodes.items channels.items outer_loops.items }
    {
        Graph {
            nodes,
            channels,
            outer_loops,
        }
    }

    /// The nodes, in order of their numbers.
    pub fn nodes(&self) -> &[Node]
        ensures { result.now ≡ self.now.nodes }
    {
        self.nodes.as_slice()
    }

    /// The channels.
    pub fn channels(&self) -> &[Channel]
        ensures channels { result.now ≡ self.now.channels }
        ensures ports { IsGraph (graph_view self.now) }
    {
        self.channels.as_slice()
    }

    /// The name of a node: the filter's, or what kind of node it is.
    pub fn name(&self, node: usize) -> &[u8]
        requires { node < length self.now.nodes }
        ensures { slice_get (node_names self.now) node ≡ Some result.now }
    {
        name_of(&self.nodes[node])
    }

    /// The joiner of the outermost feedback loop that a node is in.
    pub fn outer_loop(&self, node: usize) -> Option<u32>
        requires { node < length self.now.nodes }
        ensures { slice_get self.now.outer_loops node ≡ Some result }
    {
        self.outer_loops[node]
    }
}

/// A node's name.
fn name_of(node: &Node) -> &[u8]
    ensures { result.now ≡ graphs.node_name (node_view node.now) }
{
    match node {
        Node::Filter(instance) => instance_name(instance),
        Node::Identity => b"Identity",
        Node::FileReader(_) => b"FileReader",
        Node::FileWriter(_) => b"FileWriter",
        Node::Splitter(_) => b"split",
        Node::Joiner(_) => b"join",
        Node::Scatter(_) => b"scatter",
        Node::Copy(copied, _) => copied_name(copied),
        Node::Gather(_) => b"gather",
    }
}

/// The name of a copy.
fn copied_name(copied: &Copied) -> &[u8]
    ensures { result.now ≡ graphs.copied_name (copied_view copied.now) }
{
    match copied {
        Copied::Filter(instance) => instance_name(instance),
        Copied::Identity => b"Identity",
    }
}

/// The name of a filter.
fn instance_name(instance: &Instance) -> &[u8]
    ensures { result.now ≡ graphs.filter_name instance.now.name }
{
    match &instance.name {
        Some(name) => name.as_bytes(),
        None => b"filter",
    }
}

/// How many input ports a node has.
pub fn input_ports(node: &Node) -> usize
    ensures { result ≡ graphs.input_ports (node_view node.now) }
{
    match node {
        Node::Filter(instance) => ports_of(instance.code.tree().input),
        Node::FileReader(_) => 0,
        Node::Identity | Node::FileWriter(_) | Node::Splitter(_) | Node::Scatter(_) => 1,
        Node::Joiner(weights) => weights.len(),
        Node::Copy(copied, _) => copied_inputs(copied),
        Node::Gather(fission) => fission.ways as usize,
    }
}

/// How many output ports a node has.
pub fn output_ports(node: &Node) -> usize
    ensures { result ≡ graphs.output_ports (node_view node.now) }
{
    match node {
        Node::Filter(instance) => ports_of(instance.code.tree().output),
        Node::FileWriter(_) => 0,
        Node::Identity | Node::FileReader(_) | Node::Joiner(_) | Node::Gather(_) => 1,
        Node::Splitter(Splitter::Duplicate(carried)) => carried.len(),
        Node::Splitter(Splitter::Roundrobin(weights)) => weights.len(),
        Node::Scatter(fission) => fission.ways as usize,
        Node::Copy(copied, _) => copied_outputs(copied),
    }
}

/// How many input ports a copy has.
fn copied_inputs(copied: &Copied) -> usize
    ensures { result ≡ graphs.copied_inputs (copied_view copied.now) }
{
    match copied {
        Copied::Filter(instance) => ports_of(instance.code.tree().input),
        Copied::Identity => 1,
    }
}

/// How many output ports a copy has.
fn copied_outputs(copied: &Copied) -> usize
    ensures { result ≡ graphs.copied_outputs (copied_view copied.now) }
{
    match copied {
        Copied::Filter(instance) => ports_of(instance.code.tree().output),
        Copied::Identity => 1,
    }
}

/// How many ports a side of a filter has: one where it has items.
fn ports_of(side: ItemType) -> usize
    ensures { result ≡ graphs.ports_of side }
{
    match side {
        ItemType::Int => 1,
        ItemType::Void => 0,
    }
}
