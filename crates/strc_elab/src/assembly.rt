// What is made of a composite stream's body that has run.

ghost use Rattle.std.specs.Prelude.{◌≡◌, map, IsSome, None, nat_lt, slice_index};
ghost use Rattle.std.specs.Option.{option_map};
ghost use Rattle.strc_elab_graph.specs.Carriers.{splitter_carries as splitter_carries_at};
ghost use Rattle.strc_elab_graph.specs.NodeView.{splitter_view};
ghost use Rattle.strc_elab_stream.specs.Instances as instances;
ghost use Rattle.strc_elab_stream.specs.Types as stream_types;
ghost use Rattle.strc_elab_stream.specs.View.{stream_view};
ghost use Rattle.strc_elab.specs.Answering.{progress_of, join_view, part_view};
ghost use Rattle.strc_elab.specs.Answering.{IsPlacedVerdict, IsPlaced};
ghost use Rattle.strc_elab.specs.Places.{assembly_place, pipeline_place, splitjoin_place};
ghost use Rattle.strc_elab.specs.Places.{loop_place, ends_place};
ghost use Rattle.strc_elab.specs.Places.{takes_as_written as takes_as_written_at};
ghost use Rattle.strc_elab_statements.specs.declared.error.ElabErrorKind.TheVariants as refused;
ghost use Rattle.strc_elab_statements.specs.Splits.{split_view};
ghost use Rattle.strc_elab_statements.specs.Weights as weights;
ghost use Rattle.strc_elab.specs.Elaboration as spec;
ghost use Rattle.strc_elab.specs.Assembly.{elaborated_as, IsLoopOf};
ghost use Rattle.strc_elab.specs.Tasks.{elaborated_view};

use crate::placed_error::{PlacedError, refused_at};
use crate::progress::Progress;
use crate::task::{Elaborated, Task};
use crate::trace::Trace;
use std::alloc::Global;
use strc_elab_graph::graph::Splitter;
use strc_elab_statements::error::ElabError;
use strc_elab_statements::types::{any_side, inputs_in, outputs_in, side, types_in_a_row};
use strc_elab_statements::weights::{
    Split, input_written, join_dealt, loop_splitter, loop_weights, output_written, split_dealt,
};
use strc_elab_statements::written::{is_as_written, same_item};
use strc_elab_stream::stream::Stream;
use strc_lex_names::place::Span;
use strc_parse_tree::tree::{CompositeKind, ItemType, StreamType};
use strc_work_rules::site::{Mismatch, Part};

impl Task<'_> {
    /// What is made of a body that has run.
    pub(crate) fn composite_assembly(
        &self,
        kind: CompositeKind,
        written: Option<StreamType>,
        progress: &mut Progress,
    ) -> Result<Elaborated, PlacedError>
        ensures verdict { IsPlacedVerdict elaborated_view
            (spec.composite_assembly kind self.now.declaration written
            (progress_of progress.old)) result }
        ensures place { IsPlaced (assembly_place kind self.now.declaration written
            (progress_of progress.old) progress.old.trace) result }
    {
        match kind {
            CompositeKind::Pipeline => self.pipeline_assembly(written, progress),
            CompositeKind::Splitjoin => self.splitjoin_assembly(written, progress),
            CompositeKind::Feedbackloop => self.loop_assembly(written, progress),
        }
    }

    /// A pipeline has a child.
    fn pipeline_assembly(
        &self,
        written: Option<StreamType>,
        progress: &mut Progress,
    ) -> Result<Elaborated, PlacedError>
        ensures verdict { IsPlacedVerdict elaborated_view
            (spec.pipeline_assembly self.now.declaration written progress.old.types.items
            (progress_of progress.old)) result }
        ensures place { IsPlaced (pipeline_place written progress.old.types.items
            progress.old.trace) result }
    {
        match types_in_a_row(&progress.types) {
            Some(types) if is_as_written(written, types) => {
                Ok(pipeline_of(self.alloc, types, progress))
            }
            Some(types) => Err(self.ends_differ(written, types, progress.trace)),
            None => Err(self.refused_whole(Mismatch::Missing(CompositeKind::Pipeline, Part::Add))),
        }
    }

    /// A split-join has a child, a splitter and a joiner, whose weights are allowed.
    fn splitjoin_assembly(
        &self,
        written: Option<StreamType>,
        progress: &mut Progress,
    ) -> Result<Elaborated, PlacedError>
        ensures verdict { IsPlacedVerdict elaborated_view
            (spec.splitjoin_assembly self.now.declaration written
            progress.old.types.items (option_map split_view progress.old.split)
            (join_view progress.old.join) (progress_of progress.old)) result }
        ensures place { IsPlaced (splitjoin_place self.now.declaration
            progress.old.types.items (option_map split_view progress.old.split)
            (join_view progress.old.join) (progress_of progress.old) progress.old.trace) result }
    {
        match (&progress.split, &progress.join) {
            (Some(split), Some(join)) if !progress.types.is_empty() => {
                let inputs = inputs_in(self.alloc, &progress.types)?;
                let outputs = outputs_in(self.alloc, &progress.types)?;
                let splitter = self.split_at(progress.trace.split, split, &inputs)?;
                let joiner = self.join_at(progress.trace.join, join, &outputs)?;
                let types = StreamType {
                    input: any_side(&inputs),
                    output: any_side(&outputs),
                };
                if is_as_written(written, types) {
                    Ok(splitjoin_of(self.alloc, types, splitter, joiner, progress))
                } else {
                    Err(self.refused_whole(Mismatch::Sides))
                }
            }
            _ => {
                let lacks = splitjoin_lacks(progress);
                Err(self.refused_whole(Mismatch::Missing(CompositeKind::Splitjoin, lacks)))
            }
        }
    }

    /// A feedback loop has each of its parts, and its weights are allowed.
    fn loop_assembly(
        &self,
        written: Option<StreamType>,
        progress: &mut Progress,
    ) -> Result<Elaborated, PlacedError>
        ensures verdict { IsPlacedVerdict elaborated_view
            (spec.loop_assembly self.now.declaration written
            (join_view progress.old.join) (part_view progress.old.body)
            (option_map split_view progress.old.split) (part_view progress.old.looped)
            (progress_of progress.old)) result }
        ensures place { IsPlaced (loop_place self.now.declaration written
            (join_view progress.old.join) (part_view progress.old.body)
            (option_map split_view progress.old.split) (part_view progress.old.looped)
            progress.old.trace) result }
    {
        match (&progress.join, &progress.split) {
            (Some(join), Some(split)) if progress.body.is_some() && progress.looped.is_some() => {
                let taken = input_written(written);
                let joiner = self.loop_join_at(progress.trace.join, taken, join)?;
                let given = output_written(written);
                let splitter = self.loop_split_at(progress.trace.split, given, split)?;
                let types = loop_types(&joiner, &splitter);
                if is_as_written(written, types) {
                    Ok(loop_of(self.alloc, types, joiner, splitter, progress))
                } else {
                    Err(self.refused_whole(Mismatch::LoopSides))
                }
            }
            _ => {
                let lacks = loop_lacks(progress);
                Err(self.refused_whole(Mismatch::Missing(CompositeKind::Feedbackloop, lacks)))
            }
        }
    }

    /// The stream as a whole breaks this rule on types and parts.
    fn refused_whole(&self, mismatch: Mismatch) -> PlacedError
        ensures error { result.error ≡ refused.TypeMismatch self.now.declaration }
        ensures place { result.place ≡ None }
    {
        PlacedError::from(ElabError::mismatch(self.declaration, mismatch))
    }

    /// A pipeline takes other than what is written, as its first child does, or else gives other
    /// than what is written, as its last child does.
    fn ends_differ(
        &self,
        written: Option<StreamType>,
        types: StreamType,
        trace: Trace,
    ) -> PlacedError
        ensures error { result.error ≡ refused.TypeMismatch self.now.declaration }
        ensures place { result.place ≡ ends_place written types.input trace }
    {
        if takes_as_written(written, types) {
            PlacedError {
                error: ElabError::mismatch(self.declaration, Mismatch::Last),
                place: trace.last,
            }
        } else {
            PlacedError {
                error: ElabError::mismatch(self.declaration, Mismatch::First),
                place: trace.first,
            }
        }
    }

    /// The splitter of a split-join, whose `split` is written here.
    fn split_at(
        &self,
        place: Option<Span>,
        split: &Split,
        inputs: &[ItemType],
    ) -> Result<Option<Splitter>, PlacedError>
        ensures verdict { IsPlacedVerdict (option_map splitter_view)
            (weights.split_dealt self.now.declaration (split_view split.now) inputs.now) result }
        ensures place { IsPlaced place result }
    {
        refused_at(
            place,
            split_dealt(self.alloc, self.declaration, split, inputs),
        )
    }

    /// The joiner of a split-join, whose `join` is written here.
    fn join_at(
        &self,
        place: Option<Span>,
        join: &[i32],
        outputs: &[ItemType],
    ) -> Result<Option<Vec<u32>>, PlacedError>
        ensures verdict { IsPlacedVerdict (option_map (λ dealt. dealt.items))
            (weights.join_dealt self.now.declaration join.now outputs.now) result }
        ensures place { IsPlaced place result }
    {
        refused_at(
            place,
            join_dealt(self.alloc, self.declaration, join, outputs),
        )
    }

    /// The joiner of a feedback loop, whose `join` is written here.
    fn loop_join_at(
        &self,
        place: Option<Span>,
        taken: ItemType,
        join: &[i32],
    ) -> Result<Vec<u32>, PlacedError>
        ensures verdict { IsPlacedVerdict (λ dealt. dealt.items)
            (weights.weighted self.now.declaration (weights.loop_weights taken join.now)) result }
        ensures place { IsPlaced place result }
    {
        refused_at(
            place,
            loop_weights(self.alloc, self.declaration, taken, join),
        )
    }

    /// The splitter of a feedback loop, whose `split` is written here.
    fn loop_split_at(
        &self,
        place: Option<Span>,
        given: ItemType,
        split: &Split,
    ) -> Result<Splitter, PlacedError>
        ensures verdict { IsPlacedVerdict splitter_view (weights.weighted self.now.declaration
            (weights.loop_splitter given (split_view split.now))) result }
        ensures place { IsPlaced place result }
    {
        refused_at(
            place,
            loop_splitter(self.alloc, self.declaration, given, split),
        )
    }
}

/// The first part that a split-join lacks.
fn splitjoin_lacks(progress: &Progress) -> Part {
    if progress.split.is_none() {
        Part::Split
    } else if progress.types.is_empty() {
        Part::Add
    } else {
        Part::Join
    }
}

/// The first part that a feedback loop lacks.
fn loop_lacks(progress: &Progress) -> Part {
    if progress.join.is_none() {
        Part::Join
    } else if progress.body.is_none() {
        Part::Body
    } else if progress.looped.is_none() {
        Part::Loop
    } else {
        Part::Split
    }
}

/// Whether a pipeline takes what is written.
fn takes_as_written(written: Option<StreamType>, types: StreamType) -> bool
    ensures { result ≡ takes_as_written_at written types.input }
{
    match written {
        Some(written) => same_item(written.input, types.input),
        None => true,
    }
}

/// The children in a row.
fn pipeline_of(alloc: Global, types: StreamType, progress: &mut Progress) -> Elaborated
    ensures { elaborated_view result ≡ elaborated_as types
        (instances.Pipeline (instances.in_a_row (map stream_view progress.old.children.items)))
        (progress_of progress.old) }
{
    let children = std::mem::replace(&mut progress.children, Vec::new(alloc));
    Elaborated {
        stream: Stream::Pipeline(children),
        types,
        totals: progress.totals(),
    }
}

/// The children side by side.
fn splitjoin_of(
    alloc: Global,
    types: StreamType,
    splitter: Option<Splitter>,
    joiner: Option<Vec<u32>>,
    progress: &mut Progress,
) -> Elaborated
    ensures { elaborated_view result ≡ elaborated_as types
        (instances.SplitJoin (option_map splitter_view splitter)
        (instances.in_a_row (map stream_view progress.old.children.items))
        (option_map (λ weights. weights.items) joiner)) (progress_of progress.old) }
{
    let children = std::mem::replace(&mut progress.children, Vec::new(alloc));
    Elaborated {
        stream: Stream::SplitJoin(splitter, children, joiner),
        types,
        totals: progress.totals(),
    }
}

/// Body and loop between a joiner and a splitter.
fn loop_of(
    alloc: Global,
    types: StreamType,
    joiner: Vec<u32>,
    splitter: Splitter,
    progress: &mut Progress,
) -> Elaborated
    requires body { IsSome progress.old.body }
    requires looped { IsSome progress.old.looped }
    ensures { IsLoopOf types joiner.items (splitter_view splitter) progress.old
        (elaborated_view result) }
{
    let body = progress.body.take().unwrap();
    let looped = progress.looped.take().unwrap();
    let enqueued = std::mem::replace(&mut progress.enqueued, Vec::new(alloc));
    Elaborated {
        stream: Stream::FeedbackLoop(joiner, body, splitter, looped, enqueued),
        types,
        totals: progress.totals(),
    }
}

/// What a feedback loop takes and gives.
fn loop_types(joiner: &[u32], splitter: &Splitter) -> StreamType
    ensures input { result.input ≡ stream_types.side (nat_lt 0 (slice_index joiner.now 0)) }
    ensures output { result.output
        ≡ stream_types.side (splitter_carries_at (splitter_view splitter.now) 0) }
{
    StreamType {
        input: side(first_carries(joiner)),
        output: side(splitter_carries(splitter)),
    }
}

/// Whether the first port carries items.
fn first_carries(weights: &[u32]) -> bool
    ensures { result ≡ nat_lt 0 (slice_index weights.now 0) }
{
    match weights {
        [first, ..] => *first > 0,
        [] => false,
    }
}

/// Whether a splitter's first port carries items.
fn splitter_carries(splitter: &Splitter) -> bool
    ensures { result ≡ splitter_carries_at (splitter_view splitter.now) 0 }
{
    match splitter {
        Splitter::Duplicate(carried) => match carried.as_slice() {
            [first, ..] => *first,
            [] => false,
        },
        Splitter::Roundrobin(weights) => first_carries(weights),
    }
}
