// A whole program.

ghost use Rattle.std.specs.Prelude.{◌≡◌, ◌<◌, ◌++◌, IfOk, OnOk, length};
ghost use Rattle.strc_elab_graph.specs.Graphs.{node_name};
ghost use Rattle.strc_elab_graph.specs.NodeView.{node_view};
ghost use Rattle.strc_emit_text.specs.Texts.{texts_below};
ghost use Rattle.strc_emit_program.specs.Programs as spec;

use crate::fixed::{HEAD, INPUT, MAIN, MOVES, SERVED, STATE, WORDS};
use crate::nodes::push_nodes;
use crate::orders::push_order;
use std::alloc::Global;
use strc_elab_graph::graph::{Graph, Node};
use strc_elab_graph::tapes::gives_words;
use strc_emit_moves::arrays::push_arrays;
use strc_emit_moves::places::{Network, Phase, number_at};
use strc_emit_operators::operators_text;
use strc_emit_text::pieces::Piece::{Bytes, Number};
use strc_emit_text::pieces::push_pieces;
use strc_lex_names::memory::NoMemory;
use strc_sched_orders::parts::Schedule;

/// The text of the program of a graph, which the network is of, and its schedule.
pub fn program_text(
    alloc: Global,
    graph: &Graph,
    network: &Network<'_>,
    schedule: &Schedule,
) -> Result<Vec<u8>, NoMemory>
    requires { network.now.nodes.now ≡ graph.now.nodes }
    ensures { IfOk result (λ text. spec.IsProgramText network.now schedule.now text.items) }
{
    let mut text = Vec::new(alloc);
    push_start(&mut text, graph, network)?;
    push_nodes(&mut text, graph, network)?;
    push_end(&mut text, network, schedule)?;
    Ok(text)
}

// Adds what is before the functions of nodes.
fn push_start(text: &mut Vec<u8>, graph: &Graph, network: &Network<'_>) -> Result<(), NoMemory>
    requires { network.now.nodes.now ≡ graph.now.nodes }
    ensures { OnOk result (text.new.items ≡ text.old.items ++ spec.start_text network.now) }
{
    push_head(text)?;
    push_numbers(text, network)?;
    push_tapes(text, graph)?;
    push_helpers(text)?;
    push_arrays(text, network)
}

// Adds what each program begins with.
fn push_head(text: &mut Vec<u8>) -> Result<(), NoMemory>
    ensures { OnOk result (text.new.items ≡ text.old.items ++ spec.head_text) }
{
    push_pieces(text, &[Bytes(HEAD)])
}

// Adds what the functions of nodes call.
fn push_helpers(text: &mut Vec<u8>) -> Result<(), NoMemory>
    ensures { OnOk result (text.new.items ≡ text.old.items ++ spec.helpers_text) }
{
    push_pieces(
        text,
        &[
            Bytes(STATE),
            Bytes(operators_text()),
            Bytes(MOVES),
            Bytes(WORDS),
            Bytes(b"\n// The items of channels.\n"),
        ],
    )
}

// Adds what is after the functions of nodes: the orders, and what calls them.
fn push_end(text: &mut Vec<u8>, network: &Network<'_>, schedule: &Schedule) -> Result<(), NoMemory>
    ensures { OnOk result (text.new.items
        ≡ text.old.items ++ spec.end_text network.now schedule.now) }
{
    push_order(text, network, Phase::Startup, schedule.startup())?;
    push_order(text, network, Phase::Round, schedule.round())?;
    push_main(text)
}

// Adds what each program ends with.
fn push_main(text: &mut Vec<u8>) -> Result<(), NoMemory>
    ensures { OnOk result (text.new.items ≡ text.old.items ++ spec.main_text) }
{
    push_pieces(text, &[Bytes(INPUT), Bytes(SERVED)])?;
    push_run(text)?;
    push_pieces(text, &[Bytes(MAIN)])
}

// Adds the function that does start-up and so many rounds.
fn push_run(text: &mut Vec<u8>) -> Result<(), NoMemory>
    ensures { OnOk result (text.new.items ≡ text.old.items ++ spec.run_text) }
{
    push_pieces(
        text,
        &[
            Bytes(b"// Start-up, and so many rounds.\n"),
            Bytes(b"static APART void run(uint32_t rounds) {\n"),
            Bytes(b"    start_up();\n    in_round = 1;\n"),
            Bytes(b"    for (round_number = 0; round_number < rounds; round_number++) {\n"),
            Bytes(b"        keep_words();\n        one_round();\n    }\n}\n"),
        ],
    )
}

// Adds the numbers of a program: of its nodes, and of the items that it reads.
fn push_numbers(text: &mut Vec<u8>, network: &Network<'_>) -> Result<(), NoMemory>
    ensures { OnOk result (text.new.items ≡ text.old.items ++ spec.numbers_text network.now) }
{
    push_pieces(
        text,
        &[
            Bytes(b"enum { NODES = "),
            Number(network.nodes.len() as u128),
            Bytes(b" };\n"),
        ],
    )?;
    push_reader(text, network, reader_among(network.nodes))
}

// Adds how many items it reads.
fn push_reader(
    text: &mut Vec<u8>,
    network: &Network<'_>,
    reader: Option<usize>,
) -> Result<(), NoMemory>
    ensures { OnOk result (text.new.items ≡ text.old.items
        ++ spec.reader_text network.now reader) }
{
    match reader {
        None => push_reads(text, 0, 0, 0),
        Some(reader) => push_reads(
            text,
            1,
            number_at(network.startup, reader),
            number_at(network.round, reader),
        ),
    }
}

// Whether a program reads, and how many items before the first round and in each.
fn push_reads(text: &mut Vec<u8>, reads: u32, before: u32, each: u32) -> Result<(), NoMemory>
    ensures { OnOk result (text.new.items ≡ text.old.items
        ++ spec.reads_text reads before each) }
{
    push_pieces(
        text,
        &[
            Bytes(b"enum { READS = "),
            Number(reads as u128),
            Bytes(b", READS_BEFORE = "),
            Number(before as u128),
            Bytes(b", READS_A_ROUND = "),
            Number(each as u128),
            Bytes(b" };\n"),
        ],
    )
}

// The node that takes the program's input, where there is one.
fn reader_among(nodes: &[Node]) -> Option<usize>
    ensures { result ≡ spec.reader_from 0 nodes.now }
{
    for node in 0..nodes.len() {
        if let Node::FileReader(_) = &nodes[node] {
            return Some(node);
        }
    }
    None
}

// Adds the nodes of tapes, with their names.
fn push_tapes(text: &mut Vec<u8>, graph: &Graph) -> Result<(), NoMemory>
    ensures { OnOk result (text.new.items ≡ text.old.items
        ++ spec.tapes_text graph.now.nodes) }
{
    push_pieces(
        text,
        &[
            Bytes(b"static const struct {\n    uint32_t node;\n    const char *name;\n"),
            Bytes(b"} tape_nodes[] = {\n"),
        ],
    )?;
    push_tape_nodes(text, graph)?;
    push_pieces(
        text,
        &[
            Bytes(b"    {0, \"\"},\n};\n"),
            Bytes(b"enum { TAPES = sizeof tape_nodes / sizeof *tape_nodes - 1 };\n"),
        ],
    )
}

// Adds a line for each.
fn push_tape_nodes(text: &mut Vec<u8>, graph: &Graph) -> Result<(), NoMemory>
    ensures { OnOk result (text.new.items ≡ text.old.items
        ++ texts_below (spec.tape_at graph.now.nodes) (length graph.now.nodes)) }
{
    for node in 0..graph.nodes().len() {
        push_tape_at(text, graph, node)?;
    }
    Ok(())
}

// Adds that of a node.
fn push_tape_at(text: &mut Vec<u8>, graph: &Graph, node: usize) -> Result<(), NoMemory>
    requires { node < length graph.now.nodes }
    ensures { OnOk result (text.new.items ≡ text.old.items
        ++ spec.tape_at graph.now.nodes node) }
{
    push_tape(text, node, &graph.nodes()[node], graph.name(node))
}

// Adds a node that gives words.
fn push_tape(text: &mut Vec<u8>, node: usize, code: &Node, name: &[u8]) -> Result<(), NoMemory>
    requires { name.now ≡ node_name (node_view code.now) }
    ensures { OnOk result (text.new.items ≡ text.old.items ++ spec.tape_text node code.now) }
{
    if gives_words(code) {
        push_tape_line(text, node, name)
    } else {
        Ok(())
    }
}

// `{3, "P"},`
fn push_tape_line(text: &mut Vec<u8>, node: usize, name: &[u8]) -> Result<(), NoMemory>
    ensures { OnOk result (text.new.items ≡ text.old.items ++ spec.tape_line node name.now) }
{
    push_pieces(
        text,
        &[
            Bytes(b"    {"),
            Number(node as u128),
            Bytes(b", \""),
            Bytes(name),
            Bytes(b"\"},\n"),
        ],
    )
}
