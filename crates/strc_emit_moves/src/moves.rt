// What nodes that are no filters do in a firing.

ghost use Rattle.std.specs.Prelude.{◌≡◌, ◌++◌, ◌<◌, ◌≤◌, ◌^◌, ◌+◌, IfSome, OnOk, length, sum, take};
ghost use Rattle.std.specs.Option.{option_map};
ghost use Rattle.strc_elab_graph.specs.NodeView.{splitter_view};
ghost use Rattle.strc_emit_text.specs.Texts.{texts_below};
ghost use Rattle.strc_emit_moves.specs.Places as places;
ghost use Rattle.strc_emit_moves.specs.Moves as spec;

use crate::places::{Items, Network, Phase, given_at, push_place, taken_at};
use strc_elab_graph::graph::Splitter;
use strc_emit_text::pieces::Piece::{Bytes, Number};
use strc_emit_text::pieces::push_pieces;
use strc_lex_names::memory::NoMemory;

/// Adds what an Identity does: the item at port 0 is passed on.
pub fn push_identity(
    text: &mut Vec<u8>,
    network: &Network<'_>,
    phase: Phase,
    node: usize,
) -> Result<(), NoMemory>
    ensures { OnOk result (text.new.items ≡ text.old.items
        ++ spec.identity_text network.now phase node) }
{
    let taken = taken_at(network, phase, node, 0);
    let given = given_at(network, phase, node, 0);
    push_between(text, given, taken, 1)
}

/// Adds what a FileReader does: the next number of the input is passed on.
pub fn push_reader(
    text: &mut Vec<u8>,
    network: &Network<'_>,
    phase: Phase,
    node: usize,
) -> Result<(), NoMemory>
    ensures { OnOk result (text.new.items ≡ text.old.items
        ++ spec.reader_text network.now phase node) }
{
    push_read(text, given_at(network, phase, node, 0))?;
    push_pieces(text, &[Bytes(b"        taken = taken + 1;\n")])
}

// Adds that, where the port has a channel.
fn push_read(text: &mut Vec<u8>, given: Option<Items>) -> Result<(), NoMemory>
    ensures { OnOk result (text.new.items ≡ text.old.items ++ spec.read_text given) }
{
    match given {
        None => Ok(()),
        Some(given) => push_next(text, given),
    }
}

// Adds that the next number of the input becomes an item.
fn push_next(text: &mut Vec<u8>, given: Items) -> Result<(), NoMemory>
    ensures { OnOk result (text.new.items ≡ text.old.items ++ spec.next_text given) }
{
    push_pieces(text, &[Bytes(b"        ")])?;
    push_item(text, given)?;
    push_pieces(text, &[Bytes(b" = input[taken];\n")])
}

/// Adds what a FileWriter does: a line for the item.
pub fn push_writer(
    text: &mut Vec<u8>,
    network: &Network<'_>,
    phase: Phase,
    node: usize,
) -> Result<(), NoMemory>
    ensures { OnOk result (text.new.items ≡ text.old.items
        ++ spec.writer_text network.now phase node) }
{
    match taken_at(network, phase, node, 0) {
        None => Ok(()),
        Some(taken) => {
            push_pieces(
                text,
                &[Bytes(b"        print("), Number(node as u128), Bytes(b", ")],
            )?;
            push_item(text, taken)?;
            push_pieces(text, &[Bytes(b", 1);\n")])
        }
    }
}

/// Adds what a splitter does: the item to each port, or so many to each port in turn.
pub fn push_splitter(
    text: &mut Vec<u8>,
    network: &Network<'_>,
    phase: Phase,
    node: usize,
    splitter: &Splitter,
) -> Result<(), NoMemory>
    ensures { OnOk result (text.new.items ≡ text.old.items
        ++ spec.splitter_text network.now phase node (splitter_view splitter.now)) }
{
    match splitter {
        Splitter::Duplicate(carried) => push_copies(text, network, phase, node, carried),
        Splitter::Roundrobin(weights) => push_shares(text, network, phase, node, weights),
    }
}

// Adds the item to each port that carries items.
fn push_copies(
    text: &mut Vec<u8>,
    network: &Network<'_>,
    phase: Phase,
    node: usize,
    carried: &[bool],
) -> Result<(), NoMemory>
    ensures { OnOk result (text.new.items ≡ text.old.items
        ++ texts_below (spec.copy_text network.now phase node carried.now) (length carried.now)) }
{
    for port in 0..carried.len() {
        push_copy(text, network, phase, node, carried, port)?;
    }
    Ok(())
}

// Adds the item to a port, where that carries items.
fn push_copy(
    text: &mut Vec<u8>,
    network: &Network<'_>,
    phase: Phase,
    node: usize,
    carried: &[bool],
    port: usize,
) -> Result<(), NoMemory>
    requires { port < length carried.now }
    ensures { OnOk result (text.new.items ≡ text.old.items
        ++ spec.copy_text network.now phase node carried.now port) }
{
    if carried[port] {
        let taken = taken_at(network, phase, node, 0);
        let given = given_at(network, phase, node, port);
        push_between(text, given, taken, 1)
    } else {
        Ok(())
    }
}

// Adds so many items to each port in turn.
fn push_shares(
    text: &mut Vec<u8>,
    network: &Network<'_>,
    phase: Phase,
    node: usize,
    weights: &[u32],
) -> Result<(), NoMemory>
    ensures { OnOk result (text.new.items ≡ text.old.items
        ++ texts_below (spec.share_text network.now phase node weights.now)
        (length weights.now)) }
{
    let mut start: u128 = 0;
    for port in 0..weights.len() {
        push_share(text, network, phase, node, port, start, weights[port])?;
        start += u128::from(weights[port]);
    }
    Ok(())
}

// Adds the items of a port, after so many of other ports.
fn push_share(
    text: &mut Vec<u8>,
    network: &Network<'_>,
    phase: Phase,
    node: usize,
    port: usize,
    start: u128,
    count: u32,
) -> Result<(), NoMemory>
    requires { start < 2 ^ 97 }
    ensures { OnOk result (text.new.items ≡ text.old.items
        ++ spec.between_text (places.given_at network.now phase node port)
        (option_map (spec.later start) (places.taken_at network.now phase node 0)) count) }
{
    let taken = later_than(taken_at(network, phase, node, 0), start);
    push_between(text, given_at(network, phase, node, port), taken, count)
}

/// Adds what a joiner does: so many items of each port in turn.
pub fn push_joiner(
    text: &mut Vec<u8>,
    network: &Network<'_>,
    phase: Phase,
    node: usize,
    weights: &[u32],
) -> Result<(), NoMemory>
    ensures { OnOk result (text.new.items ≡ text.old.items
        ++ texts_below (spec.joined_text network.now phase node weights.now)
        (length weights.now)) }
{
    let mut start: u128 = 0;
    for port in 0..weights.len() {
        push_joined(text, network, phase, node, port, start, weights[port])?;
        start += u128::from(weights[port]);
    }
    Ok(())
}

// Adds the items of a port, after so many of other ports.
fn push_joined(
    text: &mut Vec<u8>,
    network: &Network<'_>,
    phase: Phase,
    node: usize,
    port: usize,
    start: u128,
    count: u32,
) -> Result<(), NoMemory>
    requires { start < 2 ^ 97 }
    ensures { OnOk result (text.new.items ≡ text.old.items
        ++ spec.between_text (option_map (spec.later start)
        (places.given_at network.now phase node 0))
        (places.taken_at network.now phase node port) count) }
{
    let given = later_than(given_at(network, phase, node, 0), start);
    push_between(text, given, taken_at(network, phase, node, port), count)
}

// The items after so many more.
fn later_than(items: Option<Items>, count: u128) -> Option<Items>
    requires items { IfSome items (λ items. items.after < 2 ^ 97) }
    requires count { count < 2 ^ 97 }
    ensures { result ≡ option_map (spec.later count) items }
{
    match items {
        None => None,
        Some(items) => Some(Items {
            channel: items.channel,
            after: items.after + count,
            each: items.each,
            phase: items.phase,
        }),
    }
}

// Adds a move of so many items, where there are channels on both sides.
fn push_between(
    text: &mut Vec<u8>,
    to: Option<Items>,
    from: Option<Items>,
    count: u32,
) -> Result<(), NoMemory>
    ensures { OnOk result (text.new.items ≡ text.old.items ++ spec.between_text to from count) }
{
    match (to, from) {
        (Some(to), Some(from)) => push_move(text, to, from, count),
        _ => Ok(()),
    }
}

// Adds a move of so many items: one by an assignment.
fn push_move(text: &mut Vec<u8>, to: Items, from: Items, count: u32) -> Result<(), NoMemory>
    ensures { OnOk result (text.new.items ≡ text.old.items ++ spec.move_text to from count) }
{
    if count == 0 {
        Ok(())
    } else if count == 1 {
        push_one(text, to, from)
    } else {
        push_many(text, to, from, count)
    }
}

// `c6[0 + 1 * i] = c5[2 + 3 * i];`
fn push_one(text: &mut Vec<u8>, to: Items, from: Items) -> Result<(), NoMemory>
    ensures { OnOk result (text.new.items ≡ text.old.items ++ spec.one_text to from) }
{
    push_pieces(text, &[Bytes(b"        ")])?;
    push_item(text, to)?;
    push_pieces(text, &[Bytes(b" = ")])?;
    push_item(text, from)?;
    push_pieces(text, &[Bytes(b";\n")])
}

// `copy_items(&c6[0 + 2 * i], &c5[2 + 3 * i], 2);`
fn push_many(text: &mut Vec<u8>, to: Items, from: Items, count: u32) -> Result<(), NoMemory>
    ensures { OnOk result (text.new.items ≡ text.old.items ++ spec.many_text to from count) }
{
    push_pieces(text, &[Bytes(b"        copy_items(&")])?;
    push_item(text, to)?;
    push_pieces(text, &[Bytes(b", &")])?;
    push_item(text, from)?;
    push_count(text, count)
}

// `, 2);`
fn push_count(text: &mut Vec<u8>, count: u32) -> Result<(), NoMemory>
    ensures { OnOk result (text.new.items ≡ text.old.items ++ spec.count_text count) }
{
    push_pieces(
        text,
        &[Bytes(b", "), Number(u128::from(count)), Bytes(b");\n")],
    )
}

// `c5[2 + 3 * i]`
fn push_item(text: &mut Vec<u8>, items: Items) -> Result<(), NoMemory>
    ensures { OnOk result (text.new.items ≡ text.old.items ++ spec.item_text items) }
{
    push_pieces(
        text,
        &[Bytes(b"c"), Number(items.channel as u128), Bytes(b"[")],
    )?;
    push_place(text, items)?;
    push_pieces(text, &[Bytes(b"]")])
}
