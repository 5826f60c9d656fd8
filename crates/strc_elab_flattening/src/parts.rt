// Whether all parts of a stream have nodes. A pipeline or a split-join without children isn't well
// typed, and its ports couldn't be numbered.

ghost use Rattle.std.specs.Prelude.{◌↔◌, IsTrue};
ghost use Rattle.strc_elab_stream.specs.Types.{HasFirst};
ghost use Rattle.strc_elab_stream.specs.View.{stream_view, streams_view};
ghost use Rattle.strc_elab_flattening.specs.HasNodes.{HasNodes, HaveNodes};

use strc_elab_stream::stream::Stream;

/// Whether a stream has nodes, and so has each of its parts.
#[cycle(parts)]
pub(crate) fn has_nodes(stream: &Stream) -> bool
    ensures { IsTrue result ↔ HasNodes (stream_view stream.now) }
{
    match stream {
        Stream::Filter(_) | Stream::Identity | Stream::FileReader(_) | Stream::FileWriter(_) =>
            true,
        Stream::Pipeline(children) => are_children(children),
        Stream::SplitJoin(_, children, _) => are_children(children),
        Stream::FeedbackLoop(_, body, _, loop_stream, _) => {
            has_nodes(body) && has_nodes(loop_stream)
        }
        Stream::Placed(_, inner) => has_nodes(inner),
    }
}

/// Whether there are streams, and each of them has nodes.
#[cycle(parts)]
fn are_children(streams: &[Stream]) -> bool
    ensures { IsTrue result
        ↔ HasFirst (streams_view streams.now) × HaveNodes (streams_view streams.now) }
{
    for stream in streams {
        if !has_nodes(stream) {
            return false;
        }
    }
    !streams.is_empty()
}
