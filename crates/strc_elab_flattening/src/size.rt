// How many nodes a stream has.

ghost use Rattle.std.specs.Prelude.{◌≡◌, ◌≤◌, length};
ghost use Rattle.std.specs.Option.{option_map};
ghost use Rattle.strc_elab_graph.specs.NodeView.{splitter_view};
ghost use Rattle.strc_elab_stream.specs.View.{stream_view, streams_view};
ghost use Rattle.strc_elab_stream.specs.Flattening.{size_of, row_nodes, splitter_nodes};
ghost use Rattle.strc_elab_stream.specs.Flattening.{joiner_nodes};
ghost use Rattle.strc_elab_flattening.specs.Verdicts.{node_limit};

use strc_elab_graph::graph::Splitter;
use strc_elab_stream::stream::Stream;

/// How many nodes a stream has.
#[cycle(size)]
pub(crate) fn size(stream: &Stream) -> u32
    requires { size_of (stream_view stream.now) ≤ node_limit }
    ensures { result ≡ size_of (stream_view stream.now) }
{
    match stream {
        Stream::Filter(_) | Stream::Identity | Stream::FileReader(_) | Stream::FileWriter(_) => 1,
        Stream::Pipeline(children) => row_size(children),
        Stream::SplitJoin(splitter, children, joiner) => {
            splitter_count(splitter) + row_size(children) + joiner_count(joiner)
        }
        Stream::FeedbackLoop(_, body, _, loop_stream, _) => size(body) + size(loop_stream) + 2,
        Stream::Placed(_, inner) => size(inner),
    }
}

/// How many nodes streams one after another have.
#[cycle(size)]
pub(crate) fn row_size(streams: &[Stream]) -> u32
    requires { length (row_nodes (streams_view streams.now)) ≤ node_limit }
    ensures { result ≡ length (row_nodes (streams_view streams.now)) }
{
    let mut count = 0;
    for stream in streams {
        count += size(stream);
    }
    count
}

/// One node where there is a splitter.
pub(crate) fn splitter_count(splitter: &Option<Splitter>) -> u32
    ensures { result ≡ length (splitter_nodes (option_map splitter_view splitter.now)) }
{
    match splitter {
        Some(_) => 1,
        None => 0,
    }
}

/// One node where there is a joiner.
pub(crate) fn joiner_count(joiner: &Option<Vec<u32>>) -> u32
    ensures { result ≡ length (joiner_nodes (option_map (λ weights. weights.items) joiner.now)) }
{
    match joiner {
        Some(_) => 1,
        None => 0,
    }
}
