// The joiner of the outermost feedback loop that each node is in.

ghost use Rattle.std.specs.Prelude.{◌≡◌, ◌+◌, ◌≤◌, ◌++◌, length, map, replicate, None, OnOk};
ghost use Rattle.std.specs.Option.{option_map};
ghost use Rattle.strc_elab_graph.specs.NodeView.{splitter_view};
ghost use Rattle.strc_elab_stream.specs.View.{stream_view, streams_view};
ghost use Rattle.strc_elab_stream.specs.Flattening.{size_of, row_nodes, splitter_nodes};
ghost use Rattle.strc_elab_stream.specs.Flattening.{joiner_nodes};
ghost use Rattle.strc_elab_stream.specs.Flattening.{outer_loops, row_loops};
ghost use Rattle.strc_elab_flattening.specs.Verdicts.{node_limit};

use crate::size::{joiner_count, row_size, size, splitter_count};
use std::alloc::AllocError;
use strc_elab_stream::stream::Stream;
use strc_lex_names::memory::NoMemory;

/// Adds the joiner of the outermost loop, or none, for each node of a stream whose first node has
/// this number.
#[cycle(loops)]
pub(crate) fn push_loops(
    first: u32,
    stream: &Stream,
    loops: &mut Vec<Option<u32>>,
) -> Result<(), NoMemory>
    requires { first + size_of (stream_view stream.now) ≤ node_limit }
    ensures { OnOk result (loops.new.items
        ≡ loops.old.items ++ outer_loops first (stream_view stream.now)) }
{
    match stream {
        Stream::Filter(_) | Stream::Identity | Stream::FileReader(_) | Stream::FileWriter(_) => {
            loops.push(None)?;
        }
        Stream::Pipeline(children) => push_row(first, children, loops)?,
        Stream::SplitJoin(splitter, children, joiner) => {
            let before = splitter_count(splitter);
            repeat(None, before, loops)?;
            push_row(first + before, children, loops)?;
            repeat(None, joiner_count(joiner), loops)?;
        }
        Stream::FeedbackLoop(_, _, _, _, _) => repeat(Some(first), size(stream), loops)?,
        Stream::Placed(_, inner) => push_loops(first, inner, loops)?,
    }
    Ok(())
}

/// Adds the joiner of the outermost loop, or none, for each node of streams one after another.
#[cycle(loops)]
fn push_row(first: u32, streams: &[Stream], loops: &mut Vec<Option<u32>>) -> Result<(), NoMemory>
    requires { first + length (row_nodes (streams_view streams.now)) ≤ node_limit }
    ensures { OnOk result (loops.new.items
        ≡ loops.old.items ++ row_loops first (streams_view streams.now)) }
{
    let mut next = first;
    for stream in streams {
        push_loops(next, stream, loops)?;
        next += size(stream);
    }
    Ok(())
}

/// Adds so many times the same.
fn repeat(outer: Option<u32>, count: u32, loops: &mut Vec<Option<u32>>) -> Result<(), NoMemory>
    ensures { OnOk result (loops.new.items ≡ loops.old.items ++ replicate count outer) }
{
    for _index in 0..count {
        loops.push(outer)?;
    }
    Ok(())
}
