// The names of tapes.

ghost use Rattle.std.specs.Prelude.{◌≡◌, ◌≤◌, [], IfOk, count_by, length, map};
ghost use Rattle.strc_elab_graph.specs.NodeView.{copied_view, node_view};
ghost use Rattle.strc_elab_graph.specs.Graphs as graphs;
ghost use Rattle.strc_cli_tapes.specs.TapeNames as spec;
ghost use Rattle.strc_cli_tapes.specs.TapeNames.{has_name, node_in, numbered_name, own_tapes};

use itoa::Buffer;
use std::alloc::{AllocError, Global};
use strc_elab_graph::graph::{Copied, Graph, Node};
use strc_elab_graph::instance::Instance;
use strc_elab_graph::tapes::gives_words;

/// The tape of a node, and its name.
#[derive(Drop)]
pub struct NamedTape {
    pub node: usize,
    pub name: Vec<u8>,
}

// The tape of a node, and the name that it has whatever the other ones have.
#[derive(Clone, Copy)]
struct OwnTape<'a> {
    node: usize,
    name: &'a [u8],
}

/// A graph's tapes, in order of their nodes. A tape has the name that its `FileWriter` has between
/// its quotes, or that of the filter that prints; where earlier ones have it too, the second one is
/// `NAME.2`, the third one `NAME.3`, and so on.
pub fn named_tapes(alloc: Global, graph: &Graph) -> Result<Vec<NamedTape>, AllocError>
    ensures { IfOk result (λ tapes. map (λ it. (it.node, it.name.items)) tapes.items
        ≡ spec.named_tapes (map node_view graph.now.nodes)) }
{
    let owns = own_list(alloc, graph.nodes())?;
    told_apart(alloc, &owns)
}

// These tapes, told apart by their numbers.
fn told_apart(alloc: Global, owns: &[OwnTape<'_>]) -> Result<Vec<NamedTape>, AllocError>
    ensures { IfOk result (λ tapes. map (λ it. (it.node, it.name.items)) tapes.items
        ≡ spec.told_apart [] (map (λ it. (it.node, it.name.now)) owns.now)) }
{
    let mut tapes = Vec::with_capacity(alloc, owns.len())?;
    for place in 0..owns.len() {
        let tape = told(alloc, &owns[..place], &owns[place])?;
        tapes.push(tape)?;
    }
    Ok(tapes)
}

// A tape, told apart from these earlier ones.
fn told(alloc: Global, earlier: &[OwnTape<'_>], own: &OwnTape<'_>) -> Result<NamedTape, AllocError>
    ensures { IfOk result (λ tape. (tape.node, tape.name.items)
        ≡ spec.told (map (λ it. (it.node, it.name.now)) earlier.now)
        (own.now.node, own.now.name.now)) }
{
    let number = count_of(earlier, own.name) + 1;
    Ok(NamedTape {
        node: own.node,
        name: numbered(alloc, own.name, number)?,
    })
}

/// The node of the first of these tapes that has this name.
pub fn node_of(tapes: &[NamedTape], name: &[u8]) -> Option<usize>
    ensures { result ≡ node_in (map (λ it. (it.node, it.name.items)) tapes.now) name.now }
{
    for tape in tapes {
        if tape.name.as_slice() == name {
            return Some(tape.node);
        }
    }
    None
}

// The tape of each node that has one.
fn own_list(alloc: Global, nodes: &[Node]) -> Result<Vec<OwnTape<'_>>, AllocError>
    ensures { IfOk result (λ owns. map (λ it. (it.node, it.name.now)) owns.items
        ≡ own_tapes 0 (map node_view nodes.now)) }
{
    let mut owns = Vec::new(alloc);
    for node in 0..nodes.len() {
        if gives_words(&nodes[node]) {
            let name = own_name(&nodes[node]);
            owns.push(OwnTape { node, name })?;
        }
    }
    Ok(owns)
}

// What a `FileWriter` has between its quotes, or the name of a filter; nothing for other nodes.
fn own_name(node: &Node) -> &[u8]
    ensures { result.now ≡ spec.own_name (node_view node.now) }
{
    match node {
        Node::FileWriter(text) => text.as_bytes(),
        Node::Filter(instance) => instance_name(instance),
        Node::Copy(copied, _) => copied_name(copied),
        Node::Identity
        | Node::FileReader(_)
        | Node::Splitter(_)
        | Node::Joiner(_)
        | Node::Scatter(_)
        | Node::Gather(_) => b"",
    }
}

// The name of a copy.
fn copied_name(copied: &Copied) -> &[u8]
    ensures { result.now ≡ graphs.copied_name (copied_view copied.now) }
{
    match copied {
        Copied::Filter(instance) => instance_name(instance),
        Copied::Identity => b"Identity",
    }
}

// The name of a filter.
fn instance_name(instance: &Instance) -> &[u8]
    ensures { result.now ≡ graphs.filter_name instance.now.name }
{
    match &instance.name {
        Some(name) => name.as_bytes(),
        None => b"filter",
    }
}

// How many of these tapes have this name.
fn count_of(owns: &[OwnTape<'_>], name: &[u8]) -> usize
    ensures count { result ≡ count_by (has_name name.now)
        (map (λ it. (it.node, it.name.now)) owns.now) }
    ensures few { result ≤ length owns.now }
{
    let mut count = 0;
    for own in owns {
        if own.name == name {
            count += 1;
        }
    }
    count
}

// The name of the tape of this number among those that have the name.
fn numbered(alloc: Global, name: &[u8], number: usize) -> Result<Vec<u8>, AllocError>
    ensures { IfOk result (λ text. text.items ≡ numbered_name name.now number) }
{
    let mut text = name.to_vec(alloc)?;
    if number > 1 {
        text.extend_from_slice(b".")?;
        let mut buffer = Buffer::new();
        text.extend_from_slice(buffer.format(number as u64).as_bytes())?;
    }
    Ok(text)
}
