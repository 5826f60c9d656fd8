// The arrays of channels.

ghost use Rattle.std.specs.Prelude.{◌≡◌, ◌++◌, ◌<◌, ◌≤◌, ◌^◌, ◌*◌, ◌+◌, ◌-◌, min, OnOk, length};
ghost use Rattle.strc_emit_text.specs.Texts.{texts_below};
ghost use Rattle.strc_emit_moves.specs.Rooms as rooms;

use crate::places::{Network, enqueued_items, enqueued_on, number_at, pops_of, pushes_of};
use strc_elab_graph::graph::{Channel, Port};
use strc_emit_text::numbers::push_numbers;
use strc_emit_text::pieces::Piece::{Bytes, Number};
use strc_emit_text::pieces::push_pieces;
use strc_lex_names::memory::NoMemory;

/// How many items the array of a channel has room for: all that are there until start-up is done,
/// or those that are left then and all that a round gives.
pub fn room(network: &Network<'_>, channel: usize) -> u128
    ensures { result ≡ rooms.room network.now channel }
{
    let source = source_of(network.channels, channel);
    let before = given_first(network, source);
    let later = given_later(network, source);
    let enqueued = enqueued_on(network.channels, channel) as u128;
    let left = u128::from(number_at(network.left, channel));
    (enqueued + before).max(left + later)
}

// Where a channel begins; at port 0 of node 0 where there is no such channel.
fn source_of(channels: &[Channel], channel: usize) -> Port
    ensures { result ≡ rooms.source_of channels.now channel }
{
    if channel < channels.len() {
        channels[channel].source
    } else {
        Port { node: 0, port: 0 }
    }
}

// Where a channel ends.
fn target_of(channels: &[Channel], channel: usize) -> Port
    ensures { result ≡ rooms.target_of channels.now channel }
{
    if channel < channels.len() {
        channels[channel].target
    } else {
        Port { node: 0, port: 0 }
    }
}

// How many items start-up gives at a port.
fn given_first(network: &Network<'_>, end: Port) -> u128
    ensures given { result ≡ rooms.given_first network.now end }
    ensures bound { result ≤ 2 ^ 128 - 2 ^ 96 }
{
    let node = end.node as usize;
    let port = end.port as usize;
    let first = pushes_of(network.nodes, node, 0, port);
    let later = pushes_of(network.nodes, node, 1, port);
    moved(first, later, number_at(network.startup, node))
}

// How many items a round gives at a port.
fn given_later(network: &Network<'_>, end: Port) -> u128
    ensures given { result ≡ rooms.given_later network.now end }
    ensures bound { result ≤ 2 ^ 128 - 2 ^ 96 }
{
    let node = end.node as usize;
    let port = end.port as usize;
    let first = pushes_of(network.nodes, node, 0, port);
    let later = pushes_of(network.nodes, node, 1, port);
    let round = number_at(network.round, node);
    moved_after(number_at(network.startup, node), first, later, round)
}

/// How many items start-up takes of a channel.
pub fn taken_first(network: &Network<'_>, channel: usize) -> u128
    ensures { result ≡ rooms.taken_first network.now channel }
{
    let end = target_of(network.channels, channel);
    let node = end.node as usize;
    let port = end.port as usize;
    let first = pops_of(network.nodes, node, 0, port);
    let later = pops_of(network.nodes, node, 1, port);
    moved(first, later, number_at(network.startup, node))
}

/// How many items a round takes of a channel.
pub fn taken_later(network: &Network<'_>, channel: usize) -> u128
    ensures { result ≡ rooms.taken_later network.now channel }
{
    let end = target_of(network.channels, channel);
    let node = end.node as usize;
    let port = end.port as usize;
    let first = pops_of(network.nodes, node, 0, port);
    let later = pops_of(network.nodes, node, 1, port);
    let round = number_at(network.round, node);
    moved_after(number_at(network.startup, node), first, later, round)
}

// How many items the first firings of a node move: so many the first one, and each later one.
fn moved(first: u128, later: u128, firings: u32) -> u128
    requires first { first < 2 ^ 96 }
    requires later { later < 2 ^ 96 }
    ensures moved { result ≡ rooms.moved first later firings }
    ensures bound { result ≤ 2 ^ 128 - 2 ^ 96 }
{
    if firings == 0 {
        return 0;
    }
    first + product(later, firings - 1)
}

// How many items firings move after so many others.
fn moved_after(before: u32, first: u128, later: u128, firings: u32) -> u128
    requires first { first < 2 ^ 96 }
    requires later { later < 2 ^ 96 }
    ensures moved { result ≡ rooms.moved_after before first later firings }
    ensures bound { result ≤ 2 ^ 128 - 2 ^ 96 }
{
    if before == 0 {
        moved(first, later, firings)
    } else {
        product(later, firings)
    }
}

// How many items so many firings move.
fn product(rate: u128, firings: u32) -> u128
    requires { rate < 2 ^ 96 }
    ensures product { result ≡ rate * firings }
    ensures bound { result ≤ (2 ^ 96 - 1) * firings }
{
    rate * u128::from(firings)
}

/// How many items all arrays have room for, or 2^64 - 1 where that is less.
pub fn total_room(network: &Network<'_>) -> u64
    ensures { result ≡ min (rooms.total_room network.now) (2 ^ 64 - 1) }
{
    let mut total: u64 = 0;
    for channel in 0..network.channels.len() {
        total = saturating_total(total, room(network, channel));
    }
    total
}

// The sum, or 2^64 - 1 where that is less.
fn saturating_total(total: u64, room: u128) -> u64
    ensures { result ≡ min (total + room) (2 ^ 64 - 1) }
{
    match u64::try_from(room) {
        Ok(room) => total.saturating_add(room),
        Err(_) => u64::MAX,
    }
}

/// Adds the arrays of channels.
pub fn push_arrays(text: &mut Vec<u8>, network: &Network<'_>) -> Result<(), NoMemory>
    ensures { OnOk result (text.new.items ≡ text.old.items
        ++ texts_below (rooms.array_text network.now) (length network.now.channels.now)) }
{
    for channel in 0..network.channels.len() {
        push_array(text, network, channel)?;
    }
    Ok(())
}

// `static int32_t c5[7] = {1, 2};`
fn push_array(text: &mut Vec<u8>, network: &Network<'_>, channel: usize) -> Result<(), NoMemory>
    ensures { OnOk result (text.new.items ≡ text.old.items
        ++ rooms.array_text network.now channel) }
{
    push_head(text, channel, room(network, channel).max(1))?;
    push_numbers(text, enqueued_items(network.channels, channel))?;
    push_pieces(text, &[Bytes(b";\n")])
}

// `static int32_t c5[7]`
fn push_head(text: &mut Vec<u8>, channel: usize, room: u128) -> Result<(), NoMemory>
    ensures { OnOk result (text.new.items ≡ text.old.items ++ rooms.head_text channel room) }
{
    push_pieces(
        text,
        &[
            Bytes(b"static int32_t c"),
            Number(channel as u128),
            Bytes(b"["),
            Number(room),
            Bytes(b"]"),
        ],
    )
}
