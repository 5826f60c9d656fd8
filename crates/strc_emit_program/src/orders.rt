// Orders of firings as functions.

ghost use Rattle.std.specs.Prelude.{◌≡◌, ◌++◌, [], ◌∷◌, IfOk, OnOk, length};
ghost use Rattle.strc_emit_text.specs.Texts.{texts_below};
ghost use Rattle.strc_emit_program.specs.Orders as spec;

use crate::fires::fire_name;
use std::alloc::Global;
use strc_emit_moves::arrays::{taken_first, taken_later};
use strc_emit_moves::places::{Network, Phase, number_at};
use strc_emit_text::pieces::Piece::{Bytes, Number};
use strc_emit_text::pieces::push_pieces;
use strc_lex_names::memory::NoMemory;
use strc_sched_orders::unit::Unit;

/// How many calls a function has.
pub const PART: usize = 32;

/// A call: a node's firings from one number to before another.
#[derive(Clone, Copy)]
pub struct Call {
    pub node: u32,
    pub from: u32,
    pub to: u32,
}

/// Adds the functions of an order: its calls in parts, and then a function that does them all and
/// moves what is left in the channels to the front.
pub(crate) fn push_order(
    text: &mut Vec<u8>,
    network: &Network<'_>,
    phase: Phase,
    units: &[Unit],
) -> Result<(), NoMemory>
    ensures { OnOk result (text.new.items ≡ text.old.items
        ++ spec.order_text network.now phase (length network.now.nodes.now) units.now) }
{
    let calls = calls_of(*text.allocator(), network.nodes.len(), units)?;
    let parts = calls.len() / PART + 1;
    push_parts(text, phase, &calls, parts)?;
    push_pieces(
        text,
        &[
            Bytes(b"\nstatic void "),
            Bytes(order_name(phase)),
            Bytes(b"(void) {\n"),
        ],
    )?;
    push_part_calls(text, phase, parts)?;
    push_slides(text, network, phase)?;
    push_pieces(text, &[Bytes(b"}\n")])
}

// The name of the function of an order.
fn order_name(phase: Phase) -> &'static [u8]
    ensures { result.now ≡ spec.order_name phase }
{
    match phase {
        Phase::Startup => b"start_up",
        Phase::Round => b"one_round",
    }
}

// The calls of an order, at whose beginning none of so many nodes has fired.
fn calls_of(alloc: Global, nodes: usize, units: &[Unit]) -> Result<Vec<Call>, NoMemory>
    ensures { IfOk result (λ calls. calls.items ≡ spec.calls_of nodes units.now) }
{
    let mut calls = Vec::new(alloc);
    let mut fired = Vec::from_elem(alloc, 0u32, nodes)?;
    for unit in units {
        add_calls(&mut calls, &mut fired, unit)?;
    }
    Ok(calls)
}

// Adds the calls of a unit: its nodes fire so many times each.
fn add_calls(calls: &mut Vec<Call>, fired: &mut Vec<u32>, unit: &Unit) -> Result<(), NoMemory>
    ensures calls { OnOk result (calls.new.items ≡ calls.old.items
        ++ spec.nodes_calls unit.now.turns unit.now.nodes.items fired.old.items) }
    ensures fired { OnOk result (fired.new.items
        ≡ spec.fired_after unit.now.turns unit.now.nodes.items fired.old.items) }
{
    for node in &unit.nodes {
        add_call(calls, fired, *node, unit.turns)?;
    }
    Ok(())
}

// Adds the call of a node that fires so many times. NoMemory where its firings are more than there
// can be.
fn add_call(
    calls: &mut Vec<Call>,
    fired: &mut Vec<u32>,
    node: u32,
    turns: u32,
) -> Result<(), NoMemory>
    ensures calls { OnOk result (calls.new.items
        ≡ calls.old.items ++ spec.node_call turns node fired.old.items ∷ []) }
    ensures fired { OnOk result (fired.new.items ≡ spec.fired_more turns node fired.old.items) }
{
    let from = number_at(fired, node as usize);
    let Some(to) = from.checked_add(turns) else {
        return Err(NoMemory);
    };
    if (node as usize) < fired.len() {
        fired[node as usize] = to;
    }
    calls.push(Call { node, from, to })?;
    Ok(())
}

// Adds the functions of the parts.
fn push_parts(
    text: &mut Vec<u8>,
    phase: Phase,
    calls: &[Call],
    parts: usize,
) -> Result<(), NoMemory>
    ensures { OnOk result (text.new.items ≡ text.old.items
        ++ texts_below (spec.part_text phase calls.now) parts) }
{
    for part in 0..parts {
        push_part(text, phase, calls, part)?;
    }
    Ok(())
}

// Adds the function of a part.
fn push_part(text: &mut Vec<u8>, phase: Phase, calls: &[Call], part: usize) -> Result<(), NoMemory>
    ensures { OnOk result (text.new.items ≡ text.old.items
        ++ spec.part_text phase calls.now part) }
{
    push_pieces(
        text,
        &[
            Bytes(b"\nstatic APART void "),
            Bytes(order_name(phase)),
            Bytes(b"_part"),
            Number(part as u128),
            Bytes(b"(void) {\n"),
        ],
    )?;
    push_calls(text, phase, calls, part)?;
    push_pieces(text, &[Bytes(b"}\n")])
}

// Adds the calls of a part.
fn push_calls(text: &mut Vec<u8>, phase: Phase, calls: &[Call], part: usize) -> Result<(), NoMemory>
    ensures { OnOk result (text.new.items ≡ text.old.items
        ++ texts_below (spec.call_at phase calls.now part) PART) }
{
    for place in 0..PART {
        push_call_at(text, phase, calls, part, place)?;
    }
    Ok(())
}

// Adds the call at a place of a part, where there is one.
fn push_call_at(
    text: &mut Vec<u8>,
    phase: Phase,
    calls: &[Call],
    part: usize,
    place: usize,
) -> Result<(), NoMemory>
    ensures { OnOk result (text.new.items ≡ text.old.items
        ++ spec.call_at phase calls.now part place) }
{
    let at = part.saturating_mul(PART).saturating_add(place);
    if at < calls.len() {
        push_call(text, phase, calls[at])
    } else {
        Ok(())
    }
}

// `fire3(0, 5);`
fn push_call(text: &mut Vec<u8>, phase: Phase, call: Call) -> Result<(), NoMemory>
    ensures { OnOk result (text.new.items ≡ text.old.items ++ spec.call_text phase call) }
{
    push_pieces(
        text,
        &[
            Bytes(b"    "),
            Bytes(fire_name(phase)),
            Number(call.node as u128),
            Bytes(b"("),
            Number(call.from as u128),
            Bytes(b", "),
            Number(call.to as u128),
            Bytes(b");\n"),
        ],
    )
}

// Adds the calls of the parts.
fn push_part_calls(text: &mut Vec<u8>, phase: Phase, parts: usize) -> Result<(), NoMemory>
    ensures { OnOk result (text.new.items ≡ text.old.items
        ++ texts_below (spec.part_call phase) parts) }
{
    for part in 0..parts {
        push_part_call(text, phase, part)?;
    }
    Ok(())
}

// `one_round_part3();`
fn push_part_call(text: &mut Vec<u8>, phase: Phase, part: usize) -> Result<(), NoMemory>
    ensures { OnOk result (text.new.items ≡ text.old.items ++ spec.part_call phase part) }
{
    push_pieces(
        text,
        &[
            Bytes(b"    "),
            Bytes(order_name(phase)),
            Bytes(b"_part"),
            Number(part as u128),
            Bytes(b"();\n"),
        ],
    )
}

// Adds the moves of what is left.
fn push_slides(text: &mut Vec<u8>, network: &Network<'_>, phase: Phase) -> Result<(), NoMemory>
    ensures { OnOk result (text.new.items ≡ text.old.items
        ++ texts_below (spec.slide_text network.now phase) (length network.now.channels.now)) }
{
    for channel in 0..network.channels.len() {
        push_slide(text, network, phase, channel)?;
    }
    Ok(())
}

// `slide(c5, 3, 2);`: where items are taken of a channel, and some are left.
fn push_slide(
    text: &mut Vec<u8>,
    network: &Network<'_>,
    phase: Phase,
    channel: usize,
) -> Result<(), NoMemory>
    ensures { OnOk result (text.new.items ≡ text.old.items
        ++ spec.slide_text network.now phase channel) }
{
    let gone = gone_from(network, phase, channel);
    let left = number_at(network.left, channel);
    if gone == 0 || left == 0 {
        Ok(())
    } else {
        push_move(text, channel, gone, left)
    }
}

// Adds that move.
fn push_move(text: &mut Vec<u8>, channel: usize, gone: u128, left: u32) -> Result<(), NoMemory>
    ensures { OnOk result (text.new.items ≡ text.old.items
        ++ spec.move_text channel gone left) }
{
    push_pieces(
        text,
        &[
            Bytes(b"    slide(c"),
            Number(channel as u128),
            Bytes(b", "),
            Number(gone),
            Bytes(b", "),
            Number(left as u128),
            Bytes(b");\n"),
        ],
    )
}

// How many items an order takes of a channel.
fn gone_from(network: &Network<'_>, phase: Phase, channel: usize) -> u128
    ensures { result ≡ spec.gone_from network.now phase channel }
{
    match phase {
        Phase::Startup => taken_first(network, channel),
        Phase::Round => taken_later(network, channel),
    }
}
