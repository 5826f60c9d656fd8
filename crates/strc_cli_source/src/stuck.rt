// The feedback loop that gets stuck, by its nodes.

ghost use Rattle.std.specs.Prelude.{[], OnOk};
ghost use Rattle.strc_cli_source.specs.NodeWords.{Adds, BeginsWith};

use crate::nodes::{NamedGraph, push_node};
use std::alloc::{AllocError, Global};
use strc_cli_diagnostics::message::Message;
use strc_elab_graph::graph::{Channel, Graph, Node};
use strc_elab_graph::rates::{pops_at, pushes_at, window_at};

/// The largest graph that is tried, in nodes.
const MOST_NODES: usize = 256;

/// How often each node may fire while it is tried.
const MOST_FIRINGS: u64 = 1_000;

/// How many nodes are named.
const NAMED: usize = 6;

/// A graph that is fired as far as it goes.
#[derive(Drop)]
struct Trial<'a> {
    graph: &'a Graph,
    /// How often each node has fired.
    firings: Vec<u64>,
    /// How many items each channel holds.
    items: Vec<u128>,
}

/// Names the nodes of a loop whose joiner waits for items of the loop itself, where there is one.
#[tactic(auto, using(crate::proofs::NamedNodes::adds_nothing))]
pub fn push_stuck_loop(
    alloc: Global,
    message: &mut Message,
    named: Option<NamedGraph<'_>>,
) -> Result<(), AllocError>
    ensures { OnOk result (Adds (BeginsWith []) message.old message.new) }
{
    let Some(named) = named else {
        return Ok(());
    };
    if named.graph.nodes().len() > MOST_NODES {
        return Ok(());
    }
    match stuck_joiner(alloc, named.graph)? {
        Some(joiner) => push_loop(message, named, joiner),
        None => Ok(()),
    }
}

/// The joiner that waits for items of its loop when no node fires any more.
fn stuck_joiner(alloc: Global, graph: &Graph) -> Result<Option<usize>, AllocError> {
    let mut trial = initial_trial(alloc, graph)?;
    for _turn in 0..MOST_FIRINGS {
        if !trial.fire_each() {
            break;
        }
    }
    Ok((0..graph.nodes().len()).find(|node| trial.waits_for_its_loop(*node)))
}

/// No node has fired.
fn initial_trial(alloc: Global, graph: &Graph) -> Result<Trial<'_>, AllocError> {
    let items: Vec<u128> = graph
        .channels()
        .iter()
        .map(|channel| channel.enqueued.len() as u128)
        .collect(alloc)?;
    Ok(Trial {
        graph,
        firings: Vec::from_elem(alloc, 0, graph.nodes().len())?,
        items,
    })
}

impl Trial<'_> {
    /// Fires each node once that finds its items. Whether one did.
    fn fire_each(&mut self) -> bool {
        let mut fired = false;
        for node in 0..self.graph.nodes().len() {
            if self.finds_items(node) {
                self.fire(node);
                fired = true;
            }
        }
        fired
    }

    /// How often a node has fired.
    fn firing(&self, node: usize) -> u64 {
        self.firings.get(node).copied().unwrap_or(0)
    }

    /// How many items a channel holds.
    fn item_count(&self, channel: usize) -> u128 {
        self.items.get(channel).copied().unwrap_or(0)
    }

    /// Whether a channel has what its target looks at in its next firing.
    fn has_window(&self, channel: usize) -> bool {
        let Some(found) = self.graph.channels().get(channel) else {
            return true;
        };
        let node = found.target.node as usize;
        match self.graph.nodes().get(node) {
            Some(target) => {
                let port = found.target.port as usize;
                window_at(target, self.firing(node), port) <= self.item_count(channel)
            }
            None => true,
        }
    }

    /// Whether a node finds what it looks at.
    fn finds_items(&self, node: usize) -> bool {
        for (number, channel) in self.graph.channels().iter().enumerate() {
            if channel.target.node as usize == node && !self.has_window(number) {
                return false;
            }
        }
        true
    }

    /// Fires a node.
    fn fire(&mut self, node: usize) {
        let firing = self.firing(node);
        let Some(fired) = self.graph.nodes().get(node) else {
            return;
        };
        for (number, channel) in self.graph.channels().iter().enumerate() {
            let Some(count) = self.items.get_mut(number) else {
                return;
            };
            if channel.target.node as usize == node {
                *count = count.saturating_sub(pops_at(fired, firing, channel.target.port as usize));
            }
            if channel.source.node as usize == node {
                *count = count.saturating_add(pushes_at(
                    fired,
                    firing,
                    channel.source.port as usize,
                ));
            }
        }
        if let Some(firings) = self.firings.get_mut(node) {
            *firings = firing.saturating_add(1);
        }
    }

    /// Whether a node is a loop's joiner that has too few items of the loop.
    fn waits_for_its_loop(&self, node: usize) -> bool {
        if !is_joiner_of_loop(self.graph, node) {
            return false;
        }
        for (number, channel) in self.graph.channels().iter().enumerate() {
            if channel.target.node as usize == node && channel.target.port == 1 {
                return !self.has_window(number);
            }
        }
        false
    }
}

/// Whether a node is a joiner to which a channel comes from a node after it.
fn is_joiner_of_loop(graph: &Graph, node: usize) -> bool {
    match graph.nodes().get(node) {
        Some(Node::Joiner(_)) => graph
            .channels()
            .iter()
            .any(|channel| comes_back(channel, node)),
        _ => false,
    }
}

/// Whether a channel leads to a node from one after it.
fn comes_back(channel: &Channel, node: usize) -> bool {
    channel.target.node as usize == node && channel.source.node as usize > node
}

/// The nodes of a loop, or of one round it, the joiner first.
#[tactic(auto, using(crate::proofs::NamedNodes::adds_nothing))]
fn push_loop(message: &mut Message, named: NamedGraph<'_>, joiner: usize) -> Result<(), AllocError>
    ensures { OnOk result (Adds (BeginsWith []) message.old message.new) }
{
    let graph = named.graph;
    if joiner >= graph.nodes().len() {
        return Ok(());
    }
    let outer = graph.outer_loop(joiner);
    message.add(b"; stuck is the loop of ")?;
    push_node(message, Some(named), joiner)?;
    let mut count: usize = 1;
    for node in joiner..graph.nodes().len() {
        if node != joiner && graph.outer_loop(node) == outer && count < NAMED {
            count += 1;
            message.add(b", ")?;
            push_node(message, Some(named), node)?;
        }
    }
    Ok(())
}
