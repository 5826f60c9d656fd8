// The lines of channels.

ghost use Rattle.std.specs.Prelude.{◌≡◌, ◌++◌, OnOk, length};
ghost use Rattle.strc_cli_pictures.specs.Pictures as spec;

use crate::boxes::shown_at;
use crate::large_numbers::push_number;
use std::alloc::AllocError;
use strc_cli_output::text::push_bytes;
use strc_elab_graph::graph::{Channel, Node, Port};
use strc_elab_graph::rates::{pops_at, pushes_at};

/// A firing of `work`: firing 0 may be a prework's.
const LATER: u64 = 1;

/// Adds a line for each channel of a graph in stages with these bounds, whose nodes the lines of
/// these stand for.
pub(crate) fn push_channels(
    text: &mut Vec<u8>,
    bounds: &[usize],
    shown: &[usize],
    nodes: &[Node],
    channels: &[Channel],
    sizes: &[u32],
) -> Result<(), AllocError>
    requires { length sizes.now ≡ length channels.now }
    ensures { OnOk result (text.new.items ≡ text.old.items
        ++ spec.channel_lines bounds.now shown.now nodes.now channels.now sizes.now) }
{
    for number in 0..channels.len() {
        push_channel(text, bounds, shown, nodes, &channels[number], sizes[number])?;
    }
    Ok(())
}

/// The line of a channel: whether parcels carry its items, what a firing of `work` pushes and pops
/// at its ends, the size of its buffer, and how many items are enqueued on it. One within a single
/// box has none.
fn push_channel(
    text: &mut Vec<u8>,
    bounds: &[usize],
    shown: &[usize],
    nodes: &[Node],
    channel: &Channel,
    size: u32,
) -> Result<(), AllocError>
    ensures { OnOk result (text.new.items ≡ text.old.items
        ++ spec.channel_line bounds.now shown.now nodes.now channel.now size) }
{
    let source = shown_at(shown, channel.source.node);
    let target = shown_at(shown, channel.target.node);
    if source == target {
        return Ok(());
    }
    push_ends(text, source, target)?;
    push_crossing(text, crosses(bounds, channel))?;
    push_rates(text, nodes, channel)?;
    push_size(text, channel, size)
}

/// The lines between which a channel is drawn.
fn push_ends(text: &mut Vec<u8>, source: usize, target: usize) -> Result<(), AllocError>
    ensures { OnOk result (text.new.items ≡ text.old.items ++ spec.end_nodes source target) }
{
    push_bytes(text, b"  n")?;
    push_number(text, source as u128)?;
    push_bytes(text, b" -> n")?;
    push_number(text, target as u128)
}

/// Whether a channel goes from a stage to a later one.
fn crosses(bounds: &[usize], channel: &Channel) -> bool
    ensures { result ≡ spec.crosses bounds.now channel.now }
{
    let source = channel.source.node as usize;
    let target = channel.target.node as usize;
    for bound in bounds {
        if source < *bound && *bound <= target {
            return true;
        }
    }
    false
}

/// How a channel is drawn whose items parcels carry.
fn push_crossing(text: &mut Vec<u8>, crosses: bool) -> Result<(), AllocError>
    ensures { OnOk result (text.new.items ≡ text.old.items ++ spec.crossing_words crosses) }
{
    if crosses {
        push_bytes(text, b" [style=bold]")
    } else {
        Ok(())
    }
}

/// What a firing of `work` pushes and pops at a channel's ends.
fn push_rates(text: &mut Vec<u8>, nodes: &[Node], channel: &Channel) -> Result<(), AllocError>
    ensures { OnOk result (text.new.items ≡ text.old.items
        ++ spec.rate_words nodes.now channel.now) }
{
    push_bytes(text, b" [taillabel=\"")?;
    push_number(text, push_rate(nodes, channel.source))?;
    push_bytes(text, b"\", headlabel=\"")?;
    push_number(text, pop_rate(nodes, channel.target))
}

/// The size of its buffer, and how many items are enqueued on it.
fn push_size(text: &mut Vec<u8>, channel: &Channel, size: u32) -> Result<(), AllocError>
    ensures { OnOk result (text.new.items ≡ text.old.items ++ spec.size_words channel.now size) }
{
    push_bytes(text, b"\", label=\"size ")?;
    push_number(text, u128::from(size))?;
    push_enqueued(text, channel.enqueued.as_slice())?;
    push_bytes(text, b"\"];\n")
}

/// What a firing of `work` pushes at a port.
fn push_rate(nodes: &[Node], port: Port) -> u128
    ensures { result ≡ spec.push_rate nodes.now port.node port.port }
{
    match nodes.get(port.node as usize) {
        Some(node) => pushes_at(node, LATER, port.port as usize),
        None => 0,
    }
}

/// What it pops there.
fn pop_rate(nodes: &[Node], port: Port) -> u128
    ensures { result ≡ spec.pop_rate nodes.now port.node port.port }
{
    match nodes.get(port.node as usize) {
        Some(node) => pops_at(node, LATER, port.port as usize),
        None => 0,
    }
}

/// How many items are enqueued on a channel, where there are any.
fn push_enqueued(text: &mut Vec<u8>, enqueued: &[i32]) -> Result<(), AllocError>
    ensures { OnOk result (text.new.items ≡ text.old.items
        ++ spec.enqueued_words (length enqueued.now)) }
{
    if enqueued.is_empty() {
        return Ok(());
    }
    push_bytes(text, b"\\n")?;
    push_number(text, enqueued.len() as u128)?;
    push_bytes(text, b" enqueued")
}
