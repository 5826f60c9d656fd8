// The nodes of a stream, in preorder.

ghost use Rattle.std.specs.Prelude.{◌≡◌, ◌++◌, map, OnOk};
ghost use Rattle.std.specs.Option.{option_map};
ghost use Rattle.strc_elab_graph.specs.NodeView.{node_view, splitter_view};
ghost use Rattle.strc_elab_stream.specs.View.{stream_view, streams_view};
ghost use Rattle.strc_elab_stream.specs.Flattening.{nodes_of, row_nodes, splitter_nodes};
ghost use Rattle.strc_elab_stream.specs.Flattening.{joiner_nodes};

use std::alloc::Global;
use strc_elab_graph::graph::{Node, Splitter};
use strc_elab_graph::node_copy::copy_splitter;
use strc_elab_stream::stream::Stream;
use strc_lex_names::memory::NoMemory;

/// Adds a stream's nodes in preorder.
#[cycle(nodes)]
pub(crate) fn collect(alloc: Global, stream: &Stream, nodes: &mut Vec<Node>) -> Result<(), NoMemory>
    ensures { OnOk result (map node_view nodes.new.items
        ≡ map node_view nodes.old.items ++ nodes_of (stream_view stream.now)) }
{
    match stream {
        Stream::Filter(instance) => {
            nodes.push(Node::Filter(instance.copy(alloc)?))?;
        }
        Stream::Identity => nodes.push(Node::Identity)?,
        Stream::FileReader(text) => nodes.push(Node::FileReader(text.copy()?))?,
        Stream::FileWriter(text) => nodes.push(Node::FileWriter(text.copy()?))?,
        Stream::Pipeline(children) => collect_row(alloc, children, nodes)?,
        Stream::SplitJoin(splitter, children, joiner) => {
            push_splitter(alloc, splitter, nodes)?;
            collect_row(alloc, children, nodes)?;
            push_joiner(alloc, joiner, nodes)?;
        }
        Stream::FeedbackLoop(joiner, body, splitter, loop_stream, _) => {
            nodes.push(Node::Joiner(joiner.to_vec(alloc)?))?;
            collect(alloc, body, nodes)?;
            nodes.push(Node::Splitter(copy_splitter(alloc, splitter)?))?;
            collect(alloc, loop_stream, nodes)?;
        }
        Stream::Placed(_, inner) => collect(alloc, inner, nodes)?,
    }
    Ok(())
}

/// Adds the nodes of streams one after another.
#[cycle(nodes)]
fn collect_row(alloc: Global, streams: &[Stream], nodes: &mut Vec<Node>) -> Result<(), NoMemory>
    ensures { OnOk result (map node_view nodes.new.items
        ≡ map node_view nodes.old.items ++ row_nodes (streams_view streams.now)) }
{
    for stream in streams {
        collect(alloc, stream, nodes)?;
    }
    Ok(())
}

/// Adds a splitter, where there is one.
fn push_splitter(
    alloc: Global,
    splitter: &Option<Splitter>,
    nodes: &mut Vec<Node>,
) -> Result<(), NoMemory>
    ensures { OnOk result (map node_view nodes.new.items ≡ map node_view nodes.old.items
        ++ splitter_nodes (option_map splitter_view splitter.now)) }
{
    if let Some(splitter) = splitter {
        nodes.push(Node::Splitter(copy_splitter(alloc, splitter)?))?;
    }
    Ok(())
}

/// Adds a joiner, where there is one.
fn push_joiner(
    alloc: Global,
    joiner: &Option<Vec<u32>>,
    nodes: &mut Vec<Node>,
) -> Result<(), NoMemory>
    ensures { OnOk result (map node_view nodes.new.items ≡ map node_view nodes.old.items
        ++ joiner_nodes (option_map (λ weights. weights.items) joiner.now)) }
{
    if let Some(weights) = joiner {
        nodes.push(Node::Joiner(weights.to_vec(alloc)?))?;
    }
    Ok(())
}
