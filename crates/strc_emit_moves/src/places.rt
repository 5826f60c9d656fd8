// Where the items of a firing are in the arrays of channels.

ghost use Rattle.std.specs.Prelude.{◌≡◌, ◌++◌, ◌<◌, ◌^◌, IfSome, OnOk, length, slice_index};
ghost use Rattle.strc_emit_moves.specs.Places as spec;

use strc_elab_graph::graph::{Channel, Node};
use strc_elab_graph::rates::{pops_at, pushes_at};
use strc_emit_text::pieces::Piece::{Bytes, Number};
use strc_emit_text::pieces::push_pieces;
use strc_lex_names::memory::NoMemory;

/// What the firings of an order begin with.
#[derive(Clone, Copy)]
pub enum Phase {
    /// Nothing has fired.
    Startup,
    /// Start-up or a round is done.
    Round,
}

/// A graph's nodes and channels, for each port of each node its channel, how many items each
/// channel has after start-up, and how often each node fires before the first round and in a round.
#[derive(Clone, Copy)]
pub struct Network<'a> {
    pub nodes: &'a [Node],
    pub channels: &'a [Channel],
    pub inputs: &'a [Vec<Option<usize>>],
    pub outputs: &'a [Vec<Option<usize>>],
    pub left: &'a [u32],
    pub startup: &'a [u32],
    pub round: &'a [u32],
}

/// Where the firings of a node have their items at a port: in the array of this channel, after so
/// many others so many each; in start-up the first firing's are apart, and are before those of the
/// second one.
#[derive(Clone, Copy)]
pub struct Items {
    pub channel: usize,
    pub after: u128,
    pub each: u128,
    pub phase: Phase,
}

/// Where the firings of a node take items at a port, but for a prework.
pub fn taken_at(network: &Network<'_>, phase: Phase, node: usize, port: usize) -> Option<Items>
    ensures items { result ≡ spec.taken_at network.now phase node port }
    ensures bound { IfSome result (λ items. items.after < 2 ^ 97) }
{
    let channel = channel_at(network.inputs, node, port)?;
    Some(Items {
        channel,
        after: taken_before(network, phase, node, port),
        each: pops_of(network.nodes, node, 1, port),
        phase,
    })
}

/// Where the firings of a node give items at a port, but for a prework.
pub fn given_at(network: &Network<'_>, phase: Phase, node: usize, port: usize) -> Option<Items>
    ensures items { result ≡ spec.given_at network.now phase node port }
    ensures bound { IfSome result (λ items. items.after < 2 ^ 97) }
{
    let channel = channel_at(network.outputs, node, port)?;
    Some(Items {
        channel,
        after: given_before(network, phase, node, port, channel),
        each: pushes_of(network.nodes, node, 1, port),
        phase,
    })
}

// How many items are before those that the second firing of start-up takes, or the first one of a
// round.
fn taken_before(network: &Network<'_>, phase: Phase, node: usize, port: usize) -> u128
    ensures before { result ≡ spec.taken_before network.now phase node port }
    ensures bound { result < 2 ^ 97 }
{
    match phase {
        Phase::Startup => pops_of(network.nodes, node, 0, port),
        Phase::Round => 0,
    }
}

// How many items are before those that the second firing of start-up gives, or the first one of a
// round.
fn given_before(
    network: &Network<'_>,
    phase: Phase,
    node: usize,
    port: usize,
    channel: usize,
) -> u128
    ensures before { result ≡ spec.given_before network.now phase node port channel }
    ensures bound { result < 2 ^ 97 }
{
    match phase {
        Phase::Startup => {
            enqueued_on(network.channels, channel) as u128 + pushes_of(network.nodes, node, 0, port)
        }
        Phase::Round => u128::from(number_at(network.left, channel)),
    }
}

/// The channel at a port of a node; none where there is no such port.
pub fn channel_at(ports: &[Vec<Option<usize>>], node: usize, port: usize) -> Option<usize>
    ensures { result ≡ spec.channel_at ports.now node port }
{
    if node < ports.len() {
        entry_at(&ports[node], port)
    } else {
        None
    }
}

// The entry at a place of a list; none where there is no such place.
fn entry_at(ports: &[Option<usize>], port: usize) -> Option<usize>
    ensures { result ≡ spec.entry_at ports.now port }
{
    if port < ports.len() {
        ports[port]
    } else {
        None
    }
}

/// The number at a place of a list, 0 past its end.
pub fn number_at(numbers: &[u32], place: usize) -> u32
    ensures { result ≡ slice_index numbers.now place }
{
    if place < numbers.len() {
        numbers[place]
    } else {
        0
    }
}

/// How many items are enqueued on a channel.
pub fn enqueued_on(channels: &[Channel], channel: usize) -> usize
    ensures { result ≡ length (spec.enqueued_items channels.now channel) }
{
    enqueued_items(channels, channel).len()
}

/// The items that are enqueued on a channel; none where there is no such channel.
pub fn enqueued_items(channels: &[Channel], channel: usize) -> &[i32]
    ensures { result.now ≡ spec.enqueued_items channels.now channel }
{
    if channel < channels.len() {
        &channels[channel].enqueued
    } else {
        &[]
    }
}

/// How many items a firing of a node takes at a port; none where there is no such node.
pub fn pops_of(nodes: &[Node], node: usize, firing: u64, port: usize) -> u128
    ensures pops { result ≡ spec.pops_of nodes.now node firing port }
    ensures bound { result < 2 ^ 96 }
{
    if node < nodes.len() {
        pops_at(&nodes[node], firing, port)
    } else {
        0
    }
}

/// How many items a firing of a node gives at a port; none where there is no such node.
pub fn pushes_of(nodes: &[Node], node: usize, firing: u64, port: usize) -> u128
    ensures pushes { result ≡ spec.pushes_of nodes.now node firing port }
    ensures bound { result < 2 ^ 96 }
{
    if node < nodes.len() {
        pushes_at(&nodes[node], firing, port)
    } else {
        0
    }
}

/// Adds where the items of firing i begin: `2 + 3 * i`, in start-up `2 + 3 * (i - 1)`.
pub fn push_place(text: &mut Vec<u8>, items: Items) -> Result<(), NoMemory>
    ensures { OnOk result (text.new.items ≡ text.old.items ++ spec.place_text items) }
{
    push_pieces(
        text,
        &[
            Number(items.after),
            Bytes(b" + "),
            Number(items.each),
            Bytes(firing_name(items.phase)),
        ],
    )
}

// By what the number of a firing is written.
fn firing_name(phase: Phase) -> &'static [u8]
    ensures { result.now ≡ spec.firing_name phase }
{
    match phase {
        Phase::Startup => b" * (i - 1)",
        Phase::Round => b" * i",
    }
}

/// Adds the address of the items of firing i: `c5 + (2 + 3 * i)`; of a port without a channel
/// `nothing`.
pub fn push_pointer(text: &mut Vec<u8>, items: Option<Items>) -> Result<(), NoMemory>
    ensures { OnOk result (text.new.items ≡ text.old.items ++ spec.pointer_text items) }
{
    match items {
        None => push_pieces(text, &[Bytes(b"nothing")]),
        Some(items) => {
            push_pieces(
                text,
                &[Bytes(b"c"), Number(items.channel as u128), Bytes(b" + (")],
            )?;
            push_place(text, items)?;
            push_pieces(text, &[Bytes(b")")])
        }
    }
}
