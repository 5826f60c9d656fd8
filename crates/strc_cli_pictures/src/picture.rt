// The whole picture.

ghost use Rattle.std.specs.Prelude.{◌≡◌, [], IfOk, length, map};
ghost use Rattle.strc_cli_pictures.specs.Boxes as spec;
ghost use Rattle.strc_cli_pictures.specs.Boxes.{depth_shown, picture_text};
ghost use Rattle.strc_cli_pictures.specs.Lists.{nodes_of};
ghost use Rattle.strc_cli_pictures.specs.Stages.{plan_picture_text};

use crate::boxes::{push_parts, shown_nodes};
use crate::channels::push_channels;
use crate::legend::{push_legend, push_stage_legend};
use crate::nodes::Counted;
use crate::stages::{push_batch, push_bounded};
use crate::tapes::tapes_of;
use std::alloc::{AllocError, Global};
use strc_cli_output::text::push_bytes;
use strc_elab_graph::graph::{Channel, Graph};
use strc_elab_paths::outline::{Part, outline_of};
use strc_elab_paths::paths::labels_of;
use strc_elab_stream::stream::Stream;
use strc_sched_orders::unit::Unit;

/// How a flat graph is drawn.
#[derive(Clone, Copy)]
pub struct Detail<'a> {
    /// Composite streams in so many others are single boxes, where a number is given.
    pub depth: Option<u32>,
    /// The share of the time of each node, in thousandths, where it is known.
    pub shares: &'a [Option<u32>],
}

/// A picture of a stream's flat graph as Graphviz reads it (`dot -Tsvg`): a box with the number and
/// the label of each node, how often it fires in a round and, where it does, before the first one,
/// and, where there are several tapes, the number of its tape; a line for each channel, with what a
/// firing of `work` pushes and pops at its ends, the size of its buffer, and how many items are
/// enqueued on it. Composite streams are boxes around their nodes, or in place of them. Each
/// channel has a size.
pub fn picture(
    alloc: Global,
    stream: &Stream,
    graph: &Graph,
    startup: &[u32],
    round: &[u32],
    sizes: &[u32],
    detail: Detail<'_>,
) -> Result<Vec<u8>, AllocError>
    requires { length sizes.now ≡ length graph.now.channels }
    ensures { IfOk result (λ text. text.items ≡ picture_text stream.now graph.now startup.now
        round.now sizes.now detail.entry.depth detail.entry.shares.now) }
{
    let parts = outline_of(alloc, stream)?;
    let labels = labels_of(alloc, &parts)?;
    let tapes = tapes_of(alloc, graph.nodes())?;
    let counted = Counted {
        labels: &labels,
        nodes: graph.nodes(),
        startup,
        round,
        tapes: &tapes,
        shares: detail.shares,
    };
    parts_picture(
        alloc,
        counted,
        &parts,
        graph.channels(),
        sizes,
        detail.depth,
    )
}

/// A picture of parts, by what is written of their nodes, and of channels with buffers of these
/// sizes.
fn parts_picture(
    alloc: Global,
    counted: Counted<'_>,
    parts: &[Part],
    channels: &[Channel],
    sizes: &[u32],
    depth: Option<u32>,
) -> Result<Vec<u8>, AllocError>
    requires { length sizes.now ≡ length channels.now }
    ensures { IfOk result (λ text. text.items
        ≡ spec.parts_picture (nodes_of counted.entry) parts.now channels.now sizes.now depth) }
{
    let within = depth_of(depth);
    let shown = shown_nodes(alloc, within, parts)?;
    let mut text = Vec::new(alloc);
    push_bytes(&mut text, b"digraph strc {\n  node [shape=box];\n")?;
    push_parts(&mut text, counted, within, parts)?;
    push_channels(&mut text, &[], &shown, counted.nodes, channels, sizes)?;
    push_legend(&mut text, depth.is_some(), !counted.shares.is_empty())?;
    push_bytes(&mut text, b"}\n")?;
    Ok(text)
}

/// In how many others a composite stream is a single box: in no number of them where none is given.
fn depth_of(depth: Option<u32>) -> usize
    ensures { result ≡ depth_shown depth }
{
    match depth {
        Some(depth) => depth as usize,
        None => usize::MAX,
    }
}

/// A picture of a plan's graph as Graphviz reads it: a box for each stage that begins at one of
/// these bounds and ends at the next one, with the lines of its nodes, as in `picture`, by these
/// labels; in it, a box for each unit of several nodes, with how many times they fire in turn; a
/// line for each channel, as in `picture`, bold where parcels carry its items from one stage to
/// another; a legend; and how many rounds go at a time.
///
/// The bounds are those that a plan is cut at: its round goes stage by stage. Composite streams
/// have no boxes, since a stage can have nodes inside and outside of one, and boxes can't overlap.
/// Each channel has a size.
pub fn plan_picture(
    alloc: Global,
    graph: &Graph,
    labels: &[Vec<u8>],
    startup: &[u32],
    round: &[u32],
    sizes: &[u32],
    units: &[Unit],
    bounds: &[usize],
    batch: u32,
) -> Result<Vec<u8>, AllocError>
    requires { length sizes.now ≡ length graph.now.channels }
    ensures { IfOk result (λ text. text.items ≡ plan_picture_text graph.now
        (map (λ l. l.items) labels.now) startup.now round.now sizes.now units.now bounds.now
        batch) }
{
    let tapes = tapes_of(alloc, graph.nodes())?;
    let counted = Counted {
        labels,
        nodes: graph.nodes(),
        startup,
        round,
        tapes: &tapes,
        shares: &[],
    };
    let mut text = Vec::new(alloc);
    push_bytes(&mut text, b"digraph strc {\n  node [shape=box];\n")?;
    push_bounded(&mut text, counted, units, bounds)?;
    push_channels(
        &mut text,
        bounds,
        &[],
        graph.nodes(),
        graph.channels(),
        sizes,
    )?;
    push_stage_legend(&mut text)?;
    push_batch(&mut text, batch)?;
    push_bytes(&mut text, b"}\n")?;
    Ok(text)
}
