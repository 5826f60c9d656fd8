// The functions by which a node fires.

ghost use Rattle.std.specs.Prelude.{◌≡◌, ◌++◌, OnOk};
ghost use Rattle.strc_emit_program.specs.Fires as spec;

use strc_elab_graph::graph::Node;
use strc_emit_filter::filters::has_helpers;
use strc_emit_moves::moves::{push_identity, push_joiner, push_reader, push_splitter, push_writer};
use strc_emit_moves::places::{
    Items, Network, Phase, enqueued_on, given_at, number_at, push_pointer, taken_at,
};
use strc_emit_text::pieces::Piece::{Bytes, Number};
use strc_emit_text::pieces::push_pieces;
use strc_lex_names::memory::NoMemory;
use strc_work_code::code::Code;

/// Adds the function for the firings of a node, from one number to before another: `start3` before
/// the first round, `fire3` in a round.
pub(crate) fn push_fires(
    text: &mut Vec<u8>,
    network: &Network<'_>,
    phase: Phase,
    node: usize,
    code: &Node,
) -> Result<(), NoMemory>
    ensures { OnOk result (text.new.items ≡ text.old.items
        ++ spec.fires_text network.now phase node code.now) }
{
    push_pieces(
        text,
        &[
            Bytes(b"static void "),
            Bytes(fire_name(phase)),
            Number(node as u128),
            Bytes(b"(int32_t from, int32_t to) {\n"),
        ],
    )?;
    push_first(text, network, phase, node, code)?;
    push_pieces(
        text,
        &[Bytes(b"    for (int32_t i = from; i < to; i++) {\n")],
    )?;
    push_firing(text, network, phase, node, code)?;
    push_pieces(text, &[Bytes(b"    }\n}\n")])
}

/// The name of those functions.
pub(crate) fn fire_name(phase: Phase) -> &'static [u8]
    ensures { result.now ≡ spec.fire_name phase }
{
    match phase {
        Phase::Startup => b"start",
        Phase::Round => b"fire",
    }
}

// Adds the firing of a prework, where the first firing is one.
fn push_first(
    text: &mut Vec<u8>,
    network: &Network<'_>,
    phase: Phase,
    node: usize,
    code: &Node,
) -> Result<(), NoMemory>
    ensures { OnOk result (text.new.items ≡ text.old.items
        ++ spec.first_text network.now phase node code.now) }
{
    match (phase, code) {
        (Phase::Startup, Node::Filter(instance)) => {
            push_prework(text, network, node, &instance.code)
        }
        _ => Ok(()),
    }
}

// Adds the firing of a prework, where there is one.
fn push_prework(
    text: &mut Vec<u8>,
    network: &Network<'_>,
    node: usize,
    code: &Code,
) -> Result<(), NoMemory>
    ensures { OnOk result (text.new.items ≡ text.old.items
        ++ spec.prework_text network.now node code.now) }
{
    if code.has_prework() {
        push_prework_call(text, network, node, code)
    } else {
        Ok(())
    }
}

// Adds that firing: the number of the loop's first firing is then 1.
fn push_prework_call(
    text: &mut Vec<u8>,
    network: &Network<'_>,
    node: usize,
    code: &Code,
) -> Result<(), NoMemory>
    ensures { OnOk result (text.new.items ≡ text.old.items
        ++ spec.prework_call network.now node code.now) }
{
    push_pieces(text, &[Bytes(b"    if (from == 0) {\n")])?;
    push_first_entry(text, node, code)?;
    push_pieces(
        text,
        &[
            Bytes(b"        int cause = prework"),
            Number(node as u128),
            Bytes(b"("),
        ],
    )?;
    push_source(text, taken_at(network, Phase::Startup, node, 0))?;
    push_pieces(text, &[Bytes(b", ")])?;
    push_target(text, network, given_at(network, Phase::Startup, node, 0))?;
    push_pieces(
        text,
        &[
            Bytes(b");\n        if (cause != NO_FAULT) fault(cause, "),
            Number(node as u128),
            Bytes(b", 0);\n        from = 1;\n    }\n"),
        ],
    )
}

// Adds that the first firing begins, where it may call helper functions.
fn push_first_entry(text: &mut Vec<u8>, node: usize, code: &Code) -> Result<(), NoMemory>
    ensures { OnOk result (text.new.items ≡ text.old.items
        ++ spec.first_entry_text node code.now) }
{
    if has_helpers(code) {
        push_first_enter(text, node)
    } else {
        Ok(())
    }
}

// `enter(3, 0);`
fn push_first_enter(text: &mut Vec<u8>, node: usize) -> Result<(), NoMemory>
    ensures { OnOk result (text.new.items ≡ text.old.items ++ spec.first_enter node) }
{
    push_pieces(
        text,
        &[
            Bytes(b"        enter("),
            Number(node as u128),
            Bytes(b", 0);\n"),
        ],
    )
}

// Adds where a prework's items begin: at the front of their array.
fn push_source(text: &mut Vec<u8>, taken: Option<Items>) -> Result<(), NoMemory>
    ensures { OnOk result (text.new.items ≡ text.old.items ++ spec.source_text taken) }
{
    match taken {
        None => push_pieces(text, &[Bytes(b"nothing")]),
        Some(items) => push_pieces(text, &[Bytes(b"c"), Number(items.channel as u128)]),
    }
}

// Adds where the items of a prework come: after those that are enqueued.
fn push_target(
    text: &mut Vec<u8>,
    network: &Network<'_>,
    given: Option<Items>,
) -> Result<(), NoMemory>
    ensures { OnOk result (text.new.items ≡ text.old.items
        ++ spec.target_text network.now given) }
{
    match given {
        None => push_pieces(text, &[Bytes(b"nothing")]),
        Some(items) => push_pieces(
            text,
            &[
                Bytes(b"c"),
                Number(items.channel as u128),
                Bytes(b" + "),
                Number(enqueued_on(network.channels, items.channel) as u128),
            ],
        ),
    }
}

// Adds what a node does in a firing.
fn push_firing(
    text: &mut Vec<u8>,
    network: &Network<'_>,
    phase: Phase,
    node: usize,
    code: &Node,
) -> Result<(), NoMemory>
    ensures { OnOk result (text.new.items ≡ text.old.items
        ++ spec.firing_text network.now phase node code.now) }
{
    match code {
        Node::Filter(instance) => push_work(text, network, phase, node, &instance.code),
        Node::Identity => push_identity(text, network, phase, node),
        Node::FileReader(_) => push_reader(text, network, phase, node),
        Node::FileWriter(_) => push_writer(text, network, phase, node),
        Node::Splitter(splitter) => push_splitter(text, network, phase, node, splitter),
        Node::Joiner(weights) => push_joiner(text, network, phase, node, weights),
        Node::Scatter(_) | Node::Copy(_, _) | Node::Gather(_) => Ok(()),
    }
}

// Adds the firing of a work.
fn push_work(
    text: &mut Vec<u8>,
    network: &Network<'_>,
    phase: Phase,
    node: usize,
    code: &Code,
) -> Result<(), NoMemory>
    ensures { OnOk result (text.new.items ≡ text.old.items
        ++ spec.work_text network.now phase node code.now) }
{
    push_entry(text, network, phase, node, code)?;
    push_pieces(
        text,
        &[
            Bytes(b"        int cause = work"),
            Number(node as u128),
            Bytes(b"("),
        ],
    )?;
    push_pointer(text, taken_at(network, phase, node, 0))?;
    push_pieces(text, &[Bytes(b", ")])?;
    push_pointer(text, given_at(network, phase, node, 0))?;
    push_pieces(
        text,
        &[
            Bytes(b");\n        if (cause != NO_FAULT) fault(cause, "),
            Number(node as u128),
            Bytes(b", "),
        ],
    )?;
    push_number(text, network, phase, node)?;
    push_pieces(text, &[Bytes(b");\n")])
}

// Adds that a firing begins, where it may call helper functions.
fn push_entry(
    text: &mut Vec<u8>,
    network: &Network<'_>,
    phase: Phase,
    node: usize,
    code: &Code,
) -> Result<(), NoMemory>
    ensures { OnOk result (text.new.items ≡ text.old.items
        ++ spec.entry_text network.now phase node code.now) }
{
    if has_helpers(code) {
        push_enter(text, network, phase, node)
    } else {
        Ok(())
    }
}

// `enter(3, firing_of(i, 5, 4));`
fn push_enter(
    text: &mut Vec<u8>,
    network: &Network<'_>,
    phase: Phase,
    node: usize,
) -> Result<(), NoMemory>
    ensures { OnOk result (text.new.items ≡ text.old.items
        ++ spec.enter_text network.now phase node) }
{
    push_pieces(
        text,
        &[Bytes(b"        enter("), Number(node as u128), Bytes(b", ")],
    )?;
    push_number(text, network, phase, node)?;
    push_pieces(text, &[Bytes(b");\n")])
}

// Adds the number of firing i of a node in its life: `firing_of(i, 5, 4)`.
fn push_number(
    text: &mut Vec<u8>,
    network: &Network<'_>,
    phase: Phase,
    node: usize,
) -> Result<(), NoMemory>
    ensures { OnOk result (text.new.items ≡ text.old.items
        ++ spec.number_text network.now phase node) }
{
    match phase {
        Phase::Startup => push_pieces(text, &[Bytes(b"firing_of(i, 0, 0)")]),
        Phase::Round => push_pieces(
            text,
            &[
                Bytes(b"firing_of(i, "),
                Number(number_at(network.startup, node) as u128),
                Bytes(b", "),
                Number(number_at(network.round, node) as u128),
                Bytes(b")"),
            ],
        ),
    }
}
