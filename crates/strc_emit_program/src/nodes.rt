// The functions of nodes, one node after another.

ghost use Rattle.std.specs.Prelude.{◌≡◌, ◌<◌, ◌++◌, ℕ, List, OnOk, length};
ghost use Rattle.strc_emit_program.specs.Programs as spec;

use crate::fires::push_fires;
use strc_elab_graph::graph::{Graph, Node};
use strc_emit_filter::filters::{push_filter, push_rates};
use strc_emit_moves::places::{Network, Phase, number_at};
use strc_emit_text::pieces::Piece::{Bytes, Number};
use strc_emit_text::pieces::push_pieces;
use strc_lex_names::memory::NoMemory;
use strc_work::firing::Fire;
use strc_work_code::code::Code;

/// Adds the functions of all nodes.
pub(crate) fn push_nodes(
    text: &mut Vec<u8>,
    graph: &Graph,
    network: &Network<'_>,
) -> Result<(), NoMemory>
    requires { network.now.nodes.now ≡ graph.now.nodes }
    ensures { OnOk result ((added : List ℕ) × spec.AreTexts (spec.IsNumbered network.now)
        (length graph.now.nodes) added × (text.new.items ≡ text.old.items ++ added)) }
{
    for node in 0..graph.nodes().len() {
        push_numbered(text, graph, network, node)?;
    }
    Ok(())
}

// Adds those of the node of a number.
fn push_numbered(
    text: &mut Vec<u8>,
    graph: &Graph,
    network: &Network<'_>,
    node: usize,
) -> Result<(), NoMemory>
    requires nodes { network.now.nodes.now ≡ graph.now.nodes }
    requires there { node < length graph.now.nodes }
    ensures { OnOk result ((added : List ℕ) × spec.IsNumbered network.now node added
        × (text.new.items ≡ text.old.items ++ added)) }
{
    let nodes = graph.nodes();
    push_node(text, network, node, graph.name(node), &nodes[node])
}

// Adds those of a node, after its number, its name and its rates.
fn push_node(
    text: &mut Vec<u8>,
    network: &Network<'_>,
    node: usize,
    name: &[u8],
    code: &Node,
) -> Result<(), NoMemory>
    ensures { OnOk result ((added : List ℕ)
        × spec.IsNodeText network.now node name.now code.now added
        × (text.new.items ≡ text.old.items ++ added)) }
{
    push_pieces(
        text,
        &[
            Bytes(b"\n// Node "),
            Number(node as u128),
            Bytes(b", "),
            Bytes(name),
        ],
    )?;
    push_bodies(text, node, code)?;
    push_startup(text, network, node, code)?;
    push_fires(text, network, Phase::Round, node, code)
}

// Adds the function of a node's firings before the first round, where there are some.
fn push_startup(
    text: &mut Vec<u8>,
    network: &Network<'_>,
    node: usize,
    code: &Node,
) -> Result<(), NoMemory>
    ensures { OnOk result (text.new.items ≡ text.old.items
        ++ spec.startup_text network.now node code.now) }
{
    if number_at(network.startup, node) == 0 {
        return Ok(());
    }
    push_fires(text, network, Phase::Startup, node, code)
}

// Ends the line with the rates of a filter, and adds the functions of its bodies.
fn push_bodies(text: &mut Vec<u8>, node: usize, code: &Node) -> Result<(), NoMemory>
    ensures { OnOk result ((added : List ℕ) × spec.IsBodiesText node code.now added
        × (text.new.items ≡ text.old.items ++ added)) }
{
    match code {
        Node::Filter(instance) => {
            push_pieces(text, &[Bytes(b":")])?;
            push_rates(text, &instance.code)?;
            push_pieces(text, &[Bytes(b"\n")])?;
            push_started(text, node, &instance.code)
        }
        _ => push_pieces(text, &[Bytes(b"\n")]),
    }
}

// Adds the functions of a filter's bodies, and its fields as they are after its start.
fn push_started(text: &mut Vec<u8>, node: usize, code: &Code) -> Result<(), NoMemory>
    ensures { OnOk result ((added : List ℕ) × spec.IsStartedText node code.now added
        × (text.new.items ≡ text.old.items ++ added)) }
{
    let Ok(number) = u32::try_from(node) else {
        return Err(NoMemory);
    };
    match code.start(*text.allocator()) {
        Ok(state) => push_filter(text, number, code, state.fields()),
        Err(_) => Err(NoMemory),
    }
}
