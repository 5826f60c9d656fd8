// A stream as a row of its parts: its nodes, and where composite streams begin and end.

ghost use Rattle.std.specs.Prelude.{◌≡◌, ◌++◌, ◌∷◌, [], IfOk, OnOk};
ghost use Rattle.strc_elab_paths.specs.Labels.{named_or};
ghost use Rattle.strc_elab_paths.specs.Outlines as spec;
ghost use Rattle.strc_elab_paths.specs.declared.outline.Part.TheVariants as part;

use crate::label::{Label, name_of};
use std::alloc::{AllocError, Global};
use strc_elab_stream::stream::Stream;

/// A node, or an end of a composite stream.
#[derive(Drop)]
pub enum Part {
    /// The next node, in order of their numbers.
    Node(Label),
    /// The parts up to the `Close` that belongs to it are in a composite stream.
    Open(Label),
    Close,
}

/// The parts of a stream: its nodes in order of their numbers, and composite streams around theirs.
pub fn outline_of(alloc: Global, stream: &Stream) -> Result<Vec<Part>, AllocError>
    ensures { IfOk result (λ parts. parts.items ≡ spec.outline [] stream.now) }
{
    let mut parts = Vec::new(alloc);
    push_stream(alloc, stream, b"", &mut parts)?;
    Ok(parts)
}

/// Adds the parts of a stream of this name; no bytes where it has none.
#[cycle(outline)]
fn push_stream(
    alloc: Global,
    stream: &Stream,
    name: &[u8],
    parts: &mut Vec<Part>,
) -> Result<(), AllocError>
    ensures { OnOk result (parts.new.items ≡ parts.old.items ++ spec.outline name.now stream.now) }
{
    match stream {
        Stream::Filter(_) => push_node(alloc, name, b"filter", parts),
        Stream::Identity => push_node(alloc, name, b"Identity", parts),
        Stream::FileReader(_) => push_node(alloc, name, b"FileReader", parts),
        Stream::FileWriter(_) => push_node(alloc, name, b"FileWriter", parts),
        Stream::Pipeline(children) => {
            push_open(alloc, name, b"pipeline", parts)?;
            push_row(alloc, children, parts)?;
            Ok(parts.push(Part::Close)?)
        }
        Stream::SplitJoin(splitter, children, joiner) => {
            push_open(alloc, name, b"split-join", parts)?;
            push_node_if(alloc, splitter.is_some(), b"split", parts)?;
            push_row(alloc, children, parts)?;
            push_node_if(alloc, joiner.is_some(), b"join", parts)?;
            Ok(parts.push(Part::Close)?)
        }
        Stream::FeedbackLoop(_, body, _, back, _) => {
            push_open(alloc, name, b"feedback loop", parts)?;
            push_node(alloc, b"", b"join", parts)?;
            push_stream(alloc, body, b"", parts)?;
            push_node(alloc, b"", b"split", parts)?;
            push_stream(alloc, back, b"", parts)?;
            Ok(parts.push(Part::Close)?)
        }
        Stream::Placed(added, inner) => {
            let own = name_of(alloc, added)?;
            push_stream(alloc, inner, &own, parts)
        }
    }
}

/// Adds those of streams one after another.
#[cycle(outline)]
fn push_row(alloc: Global, streams: &[Stream], parts: &mut Vec<Part>) -> Result<(), AllocError>
    ensures { OnOk result (parts.new.items ≡ parts.old.items ++ spec.streams_outline streams.now) }
{
    for stream in streams {
        push_stream(alloc, stream, b"", parts)?;
    }
    Ok(())
}

/// Adds a node of this name, or of this kind where it has none.
fn push_node(
    alloc: Global,
    name: &[u8],
    kind: &[u8],
    parts: &mut Vec<Part>,
) -> Result<(), AllocError>
    ensures { OnOk result (parts.new.items ≡ parts.old.items
        ++ part.Node (named_or name.now kind.now) ∷ []) }
{
    let label = Label::new(alloc, name, kind)?;
    Ok(parts.push(Part::Node(label))?)
}

/// Adds a node of this kind, where there is one.
fn push_node_if(
    alloc: Global,
    is: bool,
    kind: &[u8],
    parts: &mut Vec<Part>,
) -> Result<(), AllocError>
    ensures { OnOk result (parts.new.items ≡ parts.old.items ++ spec.node_if is kind.now) }
{
    if is {
        push_node(alloc, b"", kind, parts)
    } else {
        Ok(())
    }
}

/// Adds the beginning of a composite stream of this name, or of this kind where it has none.
fn push_open(
    alloc: Global,
    name: &[u8],
    kind: &[u8],
    parts: &mut Vec<Part>,
) -> Result<(), AllocError>
    ensures { OnOk result (parts.new.items ≡ parts.old.items
        ++ part.Open (named_or name.now kind.now) ∷ []) }
{
    let label = Label::new(alloc, name, kind)?;
    Ok(parts.push(Part::Open(label))?)
}
