// The channels of a stream, in order of the ports that they leave.

ghost use Rattle.std.specs.Prelude.{◌≡◌, ◌+◌, ◌≤◌, ◌++◌, length, map, OnOk, Some};
ghost use Rattle.std.specs.Option.{option_map};
ghost use Rattle.strc_elab_graph.specs.Carriers as carriers;
ghost use Rattle.strc_elab_graph.specs.NodeView.{splitter_view, channel_view};
ghost use Rattle.strc_work_meaning.specs.Filters.{filter_of};
ghost use Rattle.strc_elab_stream.specs.View.{stream_view, streams_view};
ghost use Rattle.strc_elab_stream.specs.Types.{splitter_carried, is_int};
ghost use Rattle.strc_elab_stream.specs.Flattening.{size_of, row_nodes, splitter_nodes};
ghost use Rattle.strc_elab_stream.specs.Wires as wiring;
ghost use Rattle.strc_elab_flattening.specs.HasNodes.{HasNodes, HaveNodes};
ghost use Rattle.strc_elab_flattening.specs.TargetView.{target_view};
ghost use Rattle.strc_elab_flattening.specs.Verdicts.{node_limit};

use crate::size::{row_size, size, splitter_count};
use std::alloc::Global;
use strc_elab_graph::graph::{Channel, Port, Splitter};
use strc_elab_graph::instance::Instance;
use strc_elab_stream::stream::Stream;
use strc_lex_names::memory::NoMemory;
use strc_parse_tree::tree::ItemType;

/// Where a stream's items go: to an input port, after the items that are enqueued on the way.
#[derive(Clone, Copy)]
pub(crate) struct Target<'a> {
    pub port: Port,
    pub enqueued: &'a [i32],
}

/// Adds the channels of a stream whose first node has this number. What the stream gives goes to
/// the target, or nowhere.
///
/// Nodes are counted anew at each level of nested streams, of which there are at most 64.
#[cycle(channels)]
pub(crate) fn wire(
    alloc: Global,
    first: u32,
    stream: &Stream,
    target: Option<Target<'_>>,
    channels: &mut Vec<Channel>,
) -> Result<(), NoMemory>
    requires few { first + size_of (stream_view stream.now) ≤ node_limit }
    requires nodes { HasNodes (stream_view stream.now) }
    ensures { OnOk result (map channel_view channels.new.items
        ≡ map channel_view channels.old.items
        ++ wiring.wires first (stream_view stream.now) (option_map target_view target.entry)) }
{
    match stream {
        Stream::Filter(instance) => {
            push(alloc, gives_items(instance), first, 0, target, channels)?;
        }
        Stream::Identity | Stream::FileReader(_) => push(alloc, true, first, 0, target, channels)?,
        Stream::FileWriter(_) => {}
        Stream::Pipeline(children) => wire_row(alloc, first, children, target, channels)?,
        Stream::SplitJoin(splitter, children, joiner) => {
            let inner = first + splitter_count(splitter);
            let end = inner + row_size(children);
            wire_splitter(alloc, first, splitter, children, channels)?;
            wire_branches(alloc, inner, children, end, channels)?;
            push(alloc, joiner.is_some(), end, 0, target, channels)?;
        }
        Stream::FeedbackLoop(_, body, splitter, loop_stream, enqueued) => {
            let split = first + 1 + size(body);
            push(alloc, true, first, 0, to_port(first + 1, 0), channels)?;
            wire(alloc, first + 1, body, to_port(split, 0), channels)?;
            push(alloc, carries(splitter, 0), split, 0, target, channels)?;
            push(alloc, true, split, 1, to_port(split + 1, 0), channels)?;
            let to_joiner = back(first, enqueued);
            wire(alloc, split + 1, loop_stream, to_joiner, channels)?;
        }
        Stream::Placed(_, inner) => wire(alloc, first, inner, target, channels)?,
    }
    Ok(())
}

/// Adds the channels of streams in a row, whose first node has this number.
#[cycle(channels)]
fn wire_row(
    alloc: Global,
    first: u32,
    streams: &[Stream],
    target: Option<Target<'_>>,
    channels: &mut Vec<Channel>,
) -> Result<(), NoMemory>
    requires few { first + length (row_nodes (streams_view streams.now)) ≤ node_limit }
    requires nodes { HaveNodes (streams_view streams.now) }
    ensures { OnOk result (map channel_view channels.new.items
        ≡ map channel_view channels.old.items
        ++ wiring.row_wires first (streams_view streams.now)
        (option_map target_view target.entry)) }
{
    let mut next = first;
    for (index, stream) in streams.iter().enumerate() {
        let after = next + size(stream);
        let later = target_after(after, &streams[index + 1..], target);
        wire(alloc, next, stream, later, channels)?;
        next = after;
    }
    Ok(())
}

/// Adds the channels of streams side by side, whose items come to a joiner's ports.
#[cycle(channels)]
fn wire_branches(
    alloc: Global,
    first: u32,
    streams: &[Stream],
    joiner: u32,
    channels: &mut Vec<Channel>,
) -> Result<(), NoMemory>
    requires few { first + length (row_nodes (streams_view streams.now)) ≤ node_limit }
    requires nodes { HaveNodes (streams_view streams.now) }
    ensures { OnOk result (map channel_view channels.new.items
        ≡ map channel_view channels.old.items
        ++ wiring.branch_wires first (streams_view streams.now) joiner 0) }
{
    let mut next = first;
    for (port, stream) in streams.iter().enumerate() {
        wire(alloc, next, stream, to_port(joiner, port as u32), channels)?;
        next += size(stream);
    }
    Ok(())
}

/// Adds the channels of a splitter, where there is one, to the first nodes of the streams after it.
fn wire_splitter(
    alloc: Global,
    first: u32,
    splitter: &Option<Splitter>,
    streams: &[Stream],
    channels: &mut Vec<Channel>,
) -> Result<(), NoMemory>
    requires few { first + length (splitter_nodes (option_map splitter_view splitter.now))
        + length (row_nodes (streams_view streams.now)) ≤ node_limit }
    requires nodes { HaveNodes (streams_view streams.now) }
    ensures { OnOk result (map channel_view channels.new.items
        ≡ map channel_view channels.old.items
        ++ wiring.splitter_wires first (option_map splitter_view splitter.now)
        (streams_view streams.now)) }
{
    match splitter {
        Some(splitter) => wire_split(alloc, first, splitter, streams, channels),
        None => Ok(()),
    }
}

/// Adds the channels of a splitter of this number to the first nodes of the streams after it.
fn wire_split(
    alloc: Global,
    number: u32,
    splitter: &Splitter,
    streams: &[Stream],
    channels: &mut Vec<Channel>,
) -> Result<(), NoMemory>
    requires few { number + 1 + length (row_nodes (streams_view streams.now)) ≤ node_limit }
    requires nodes { HaveNodes (streams_view streams.now) }
    ensures { OnOk result (map channel_view channels.new.items
        ≡ map channel_view channels.old.items
        ++ wiring.split_wires number 0 (splitter_carried (splitter_view splitter.now)) (number + 1)
        (streams_view streams.now)) }
{
    let mut next = number + 1;
    for (port, stream) in streams.iter().enumerate() {
        let carries = carries(splitter, port);
        push(
            alloc,
            carries,
            number,
            port as u32,
            to_port(next, 0),
            channels,
        )?;
        next += size(stream);
    }
    Ok(())
}

/// Adds the channel from an output port to where its items go, if the port carries items.
fn push(
    alloc: Global,
    carries: bool,
    node: u32,
    port: u32,
    target: Option<Target<'_>>,
    channels: &mut Vec<Channel>,
) -> Result<(), NoMemory>
    ensures { OnOk result (map channel_view channels.new.items
        ≡ map channel_view channels.old.items
        ++ wiring.wire carries node port (option_map target_view target.entry)) }
{
    if let Some(target) = target {
        if carries {
            let enqueued = target.enqueued.to_vec(alloc)?;
            channels.push(Channel {
                source: Port { node, port },
                target: target.port,
                enqueued,
            })?;
        }
    }
    Ok(())
}

/// An input port, with nothing enqueued.
fn to_port(node: u32, port: u32) -> Option<Target<'static>>
    ensures { option_map target_view result ≡ wiring.to_port node port }
{
    Some(Target {
        port: Port { node, port },
        enqueued: &[],
    })
}

/// A joiner's port for what comes back from a loop, after enqueued items.
fn back(joiner: u32, enqueued: &[i32]) -> Option<Target<'_>>
    ensures { option_map target_view result ≡ Some (record
        { port = record { node = joiner; port = 1 }; enqueued = enqueued.now }) }
{
    Some(Target {
        port: Port {
            node: joiner,
            port: 1,
        },
        enqueued,
    })
}

/// Where the items of a stream in a row go: to the first node of the next one, or where those of
/// the row go.
fn target_after<'a>(next: u32, rest: &[Stream], target: Option<Target<'a>>) -> Option<Target<'a>>
    ensures { option_map target_view result
        ≡ wiring.target_after next (streams_view rest.now) (option_map target_view target.entry) }
{
    if rest.is_empty() {
        target
    } else {
        to_port(next, 0)
    }
}

/// Whether a splitter's port carries items.
fn carries(splitter: &Splitter, port: usize) -> bool
    ensures { result ≡ carriers.splitter_carries (splitter_view splitter.now) port }
{
    match splitter {
        Splitter::Duplicate(carried) => port < carried.len() && carried[port],
        Splitter::Roundrobin(weights) => port < weights.len() && weights[port] > 0,
    }
}

/// Whether a filter gives items.
fn gives_items(instance: &Instance) -> bool
    ensures { result ≡ is_int (filter_of instance.now.code).output }
{
    match instance.code.tree().output {
        ItemType::Int => true,
        ItemType::Void => false,
    }
}
