// What stays the same in a run: the nodes, the rings at their ports, and the program's input.

ghost use Rattle.std.specs.Prelude.{◌≡◌, All, IfOk, map, true};
ghost use Rattle.strc_elab_graph.specs.Graphs as graphs;
ghost use Rattle.strc_elab_graph.specs.NodeView.{graph_view, node_view};
ghost use Rattle.strc_sched_laws.specs.Circuits.{IsCircuit};
ghost use Rattle.strc_sched_rings.specs.Circuits.{circuit_view, IsBetween, IsReady};
ghost use Rattle.strc_sched_rings.specs.Circuits.{source_of, target_of};
ghost use Rattle.strc_sched_rings.specs.Parts.{IsPartCircuit, IsPartOf};

use crate::node_copies::part_nodes;
use crate::port_rings::PortRings;
use std::alloc::{AllocError, Global};
use std::sync::Arc;
use strc_elab_graph::graph::{Channel, Graph, Node, Port, input_ports, output_ports};
use strc_lex_names::memory::NoMemory;

/// What stays the same in a run.
#[derive(Drop)]
pub struct Circuit {
    pub nodes: Vec<Node>,
    /// For each input port the ring that is there.
    pub inputs: PortRings,
    /// For each output port.
    pub outputs: PortRings,
    /// The program's input, which the circuits of all parts share.
    pub input: Arc<Vec<i32>>,
    /// Whether no channel is known to end at the node where it begins.
    pub apart: bool,
}

impl Circuit {
    /// The circuit of a graph: a ring for each channel, at both of its ends.
    pub fn new(alloc: Global, graph: &Graph, input: &[i32]) -> Result<Circuit, NoMemory>
        ensures circuit { IfOk result (λ circuit. IsCircuit (graph_view graph.now)
            (circuit_view circuit)) }
        ensures input { IfOk result (λ circuit. (circuit_view circuit).input ≡ input.now) }
        ensures ready { IfOk result IsReady }
    {
        Circuit::part(alloc, graph, input, 0, graph.nodes().len())
    }

    /// The circuit of the nodes from `first` up to `next`, not including it: each other node is an
    /// identity there, and each channel has its ring at both of its ends.
    pub fn part(
        alloc: Global,
        graph: &Graph,
        input: &[i32],
        first: usize,
        next: usize,
    ) -> Result<Circuit, NoMemory>
        ensures part { IfOk result (λ circuit. IsPartCircuit (graph_view graph.now) first next
            (circuit_view circuit)) }
        ensures input { IfOk result (λ circuit. (circuit_view circuit).input ≡ input.now) }
        ensures ready { IfOk result IsReady }
    {
        let nodes = part_nodes(alloc, graph.nodes(), first, next)?;
        let input = Arc::new(alloc, input.to_vec(alloc)?)?;
        let channels = graph.channels();
        let targets = targets_of(alloc, channels)?;
        let sources = sources_of(alloc, channels)?;
        let inputs = PortRings::wired(alloc, &input_counts(alloc, graph.nodes())?, &targets)?;
        let outputs = PortRings::wired(alloc, &output_counts(alloc, graph.nodes())?, &sources)?;
        Ok(Circuit {
            nodes,
            inputs,
            outputs,
            input,
            apart: are_apart(channels),
        })
    }

    /// The circuit of the nodes from `first` up to `next`, not including it, of this one: each
    /// other node is an identity there, and it has the same rings and shares the input.
    pub fn part_of(&self, alloc: Global, first: usize, next: usize) -> Result<Circuit, NoMemory>
        requires ready { IsReady self.now }
        ensures part { IfOk result (λ part. IsPartOf first next (circuit_view self.now)
            (circuit_view part)) }
        ensures ready { IfOk result IsReady }
    {
        Ok(Circuit {
            nodes: part_nodes(alloc, &self.nodes, first, next)?,
            inputs: self.inputs.copy(alloc)?,
            outputs: self.outputs.copy(alloc)?,
            input: Arc::try_clone(&self.input)?,
            apart: self.apart,
        })
    }
}

/// How many input ports each node has.
fn input_counts(alloc: Global, nodes: &[Node]) -> Result<Vec<usize>, AllocError>
    ensures { IfOk result (λ counts. counts.items
        ≡ map (λ node. graphs.input_ports (node_view node)) nodes.now) }
{
    let mut counts = Vec::with_capacity(alloc, nodes.len())?;
    for node in nodes {
        counts.push(input_ports(node))?;
    }
    Ok(counts)
}

/// How many output ports each node has.
fn output_counts(alloc: Global, nodes: &[Node]) -> Result<Vec<usize>, AllocError>
    ensures { IfOk result (λ counts. counts.items
        ≡ map (λ node. graphs.output_ports (node_view node)) nodes.now) }
{
    let mut counts = Vec::with_capacity(alloc, nodes.len())?;
    for node in nodes {
        counts.push(output_ports(node))?;
    }
    Ok(counts)
}

/// Where each channel ends.
fn targets_of(alloc: Global, channels: &[Channel]) -> Result<Vec<Port>, AllocError>
    ensures { IfOk result (λ ends. ends.items ≡ map target_of channels.now) }
{
    let mut ends = Vec::with_capacity(alloc, channels.len())?;
    for channel in channels {
        ends.push(channel.target)?;
    }
    Ok(ends)
}

/// Where each channel begins.
fn sources_of(alloc: Global, channels: &[Channel]) -> Result<Vec<Port>, AllocError>
    ensures { IfOk result (λ ends. ends.items ≡ map source_of channels.now) }
{
    let mut ends = Vec::with_capacity(alloc, channels.len())?;
    for channel in channels {
        ends.push(channel.source)?;
    }
    Ok(ends)
}

/// Whether each channel ends at another node than it begins at.
fn are_apart(channels: &[Channel]) -> bool
    ensures { result ≡ true → All IsBetween channels.now }
{
    for channel in channels {
        if channel.source.node == channel.target.node {
            return false;
        }
    }
    true
}
