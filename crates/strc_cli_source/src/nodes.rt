// Nodes and channels as a person knows them.

ghost use Rattle.std.specs.Prelude.{◌≡◌, ◌<◌, [], None, OnOk, Some, length, slice_get};
ghost use Rattle.std.specs.Option.{option_and_then, option_map};
ghost use Rattle.strc_cli_diagnostics.specs.Messages.{with_more};
ghost use Rattle.strc_cli_source.specs.NodeWords.{Adds, BeginsWith, channel_words, node_words};
ghost use Rattle.strc_cli_source.specs.NodeWords.{named_words, nodes_in, path_words};

use std::alloc::AllocError;
use strc_cli_diagnostics::message::Message;
use strc_elab_graph::graph::Graph;
use strc_elab_graph::rates::{pops_at, pushes_at};

/// A firing that isn't the first one, so that it is by `work`.
const LATER: u64 = 1;

/// A flat graph, and the paths of its nodes, where they are known.
#[derive(Clone, Copy)]
pub struct NamedGraph<'a> {
    pub graph: &'a Graph,
    pub paths: &'a [Vec<u8>],
}

/// A node's name and number, and its path, where it is known.
pub fn push_node(
    message: &mut Message,
    named: Option<NamedGraph<'_>>,
    node: usize,
) -> Result<(), AllocError>
    ensures { OnOk result (message.new ≡ with_more message.old
        (node_words (nodes_in (option_map (λ n. n.graph.now) named.entry))
        (option_and_then (λ n. option_map (λ p. p.items) (slice_get n.paths.now node)) named.entry)
        node)) }
{
    let Some(NamedGraph { graph, paths }) = named else {
        return push_number(message, node);
    };
    if node >= graph.nodes().len() {
        return push_number(message, node);
    }
    push_named(message, graph.name(node), paths, node)
}

/// A node by its number alone.
#[tactic(auto, using(crate::proofs::NamedNodes::in_two))]
pub(crate) fn push_number(message: &mut Message, node: usize) -> Result<(), AllocError>
    ensures { OnOk result (message.new ≡ with_more message.old (named_words None None node)) }
{
    message.add(b"node ")?;
    message.number(node as u64)
}

/// A node by its name, its number and its path.
#[tactic(auto, using(crate::proofs::NamedNodes::named))]
pub(crate) fn push_named(
    message: &mut Message,
    name: &[u8],
    paths: &[Vec<u8>],
    node: usize,
) -> Result<(), AllocError>
    ensures { OnOk result (message.new ≡ with_more message.old (named_words (Some name.now)
        (option_map (λ p. p.items) (slice_get paths.now node)) node)) }
{
    message.quoted(name)?;
    message.add(b" (node ")?;
    message.number(node as u64)?;
    push_path(message, paths, node)?;
    message.add(b")")
}

/// A node's path after its number, where it is known.
fn push_path(message: &mut Message, paths: &[Vec<u8>], node: usize) -> Result<(), AllocError>
    ensures { OnOk result (message.new ≡ with_more message.old
        (path_words (option_map (λ p. p.items) (slice_get paths.now node)))) }
{
    match paths.get(node) {
        Some(path) => {
            message.add(b", ")?;
            message.add(path)?;
            Ok(())
        }
        None => Ok(()),
    }
}

/// A channel with both its ends and their rates.
pub fn push_channel(
    message: &mut Message,
    named: Option<NamedGraph<'_>>,
    channel: usize,
) -> Result<(), AllocError>
    ensures { OnOk result (Adds (BeginsWith (channel_words channel)) message.old message.new) }
{
    message.add(b"channel ")?;
    message.number(channel as u64)?;
    push_ends(message, named, channel)?;
    Ok(())
}

/// The ends of a channel and their rates, where they are known.
fn push_ends(
    message: &mut Message,
    named: Option<NamedGraph<'_>>,
    channel: usize,
) -> Result<(), AllocError>
    ensures { OnOk result (Adds (BeginsWith []) message.old message.new) }
{
    if let Some(NamedGraph { graph, .. }) = named {
        if let Some(found) = graph.channels().get(channel) {
            let (source, target) = (found.source, found.target);
            message.add(b", from ")?;
            push_node(message, named, source.node as usize)?;
            push_rate(
                message,
                graph,
                source.node as usize,
                source.port as usize,
                Side::Push,
            )?;
            message.add(b" to ")?;
            push_node(message, named, target.node as usize)?;
            push_rate(
                message,
                graph,
                target.node as usize,
                target.port as usize,
                Side::Pop,
            )?;
            message.add(b",")?;
            return Ok(());
        }
    }
    Ok(())
}

/// A side of a node.
#[derive(Clone, Copy)]
enum Side {
    Push,
    Pop,
}

/// How many items a firing of a node moves at a port.
fn push_rate(
    message: &mut Message,
    graph: &Graph,
    node: usize,
    port: usize,
    side: Side,
) -> Result<(), AllocError>
    ensures { OnOk result (Adds (BeginsWith []) message.old message.new) }
{
    let Some(found) = graph.nodes().get(node) else {
        return Ok(());
    };
    let (words, rate) = match side {
        Side::Push => (" that pushes ", pushes_at(found, LATER, port)),
        Side::Pop => (" that pops ", pops_at(found, LATER, port)),
    };
    message.add(words.as_bytes())?;
    // No number of items is past 64 bits: a weight is at most 65,536.
    message.number(rate.min(u128::from(u64::MAX)) as u64)?;
    Ok(())
}
