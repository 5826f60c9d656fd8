// Weights of splitters and joiners: as they are written, and dealt to the ports for what the
// streams there have.

ghost use Rattle.std.specs.Prelude.{◌≡◌, [], ◌∷◌, map, true, IfOk};
ghost use Rattle.std.specs.Option.{option_map};
ghost use Rattle.strc_elab_graph.specs.NodeView.{splitter_view};
ghost use Rattle.strc_elab_stream.specs.Types as types;
ghost use Rattle.strc_elab_statements.specs.Answers.{IsVerdict};
ghost use Rattle.strc_elab_statements.specs.declared.error.ElabErrorKind.TheVariants as refused;
ghost use Rattle.strc_elab_statements.specs.Splits.{split_view};
ghost use Rattle.strc_elab_statements.specs.Weights as spec;

use crate::error::{ElabError, ElabErrorKind};
use crate::types::{has_items, is_int};
use std::alloc::{AllocError, Global};
use strc_elab_graph::graph::Splitter;
use strc_parse_tree::tree::{ItemType, StreamType};

/// The greatest weight.
pub const WEIGHT_LIMIT: i32 = 65536;

/// A `split` whose weights are evaluated; no weights are written as none in a row.
#[derive(Drop)]
pub enum Split {
    ToEach,
    InTurn(Vec<i32>),
}

/// The weight of a port: within the limit and at least 1 where the stream at it has items, and 0
/// where it has none.
fn port_weight(weight: i32, side: ItemType) -> Option<u32>
    ensures { result ≡ spec.port_weight weight side }
{
    match side {
        ItemType::Int => {
            if weight < 1 || weight > WEIGHT_LIMIT {
                None
            } else {
                Some(weight as u32)
            }
        }
        ItemType::Void => { if weight == 0 { Some(0) } else { None } }
    }
}

/// Weights in this declaration aren't allowed.
fn bad_weights(declaration: usize) -> ElabError
    ensures { result ≡ refused.BadWeights declaration }
{
    ElabError::from(ElabErrorKind::BadWeights {
        stream: declaration,
    })
}

/// The weights of all ports, of which each has one.
fn port_weights(
    alloc: Global,
    declaration: usize,
    weights: &[i32],
    sides: &[ItemType],
) -> Result<Vec<u32>, ElabError>
    ensures { IsVerdict (λ dealt. dealt.items) (spec.weighted declaration
        (spec.port_weights weights.now sides.now)) result }
{
    if weights.len() != sides.len() {
        return Err(bad_weights(declaration));
    }
    let mut dealt = Vec::new(alloc);
    for (port, side) in sides.iter().enumerate() {
        match port_weight(weights[port], *side) {
            Some(weight) => dealt.push(weight)?,
            None => return Err(bad_weights(declaration)),
        }
    }
    Ok(dealt)
}

/// This weight for each port at which a stream has items.
fn for_each(alloc: Global, weight: i32, sides: &[ItemType]) -> Result<Vec<i32>, AllocError>
    ensures { IfOk result (λ written. written.items ≡ spec.for_each weight sides.now) }
{
    sides
        .iter()
        .map(|side| if is_int(*side) { weight } else { 0 })
        .collect(alloc)
}

/// What is written says of each port: without weights 1, one weight for all, or each by itself.
fn written_out(alloc: Global, weights: &[i32], sides: &[ItemType]) -> Result<Vec<i32>, AllocError>
    ensures { IfOk result (λ written. written.items ≡ spec.written_out weights.now sides.now) }
{
    match weights {
        [] => for_each(alloc, 1, sides),
        [weight] => for_each(alloc, *weight, sides),
        _ => weights.to_vec(alloc),
    }
}

/// The weights of ports for what the streams at them have.
fn weights_for(
    alloc: Global,
    declaration: usize,
    weights: &[i32],
    sides: &[ItemType],
) -> Result<Vec<u32>, ElabError>
    ensures { IsVerdict (λ dealt. dealt.items) (spec.weighted declaration
        (spec.weights_for weights.now sides.now)) result }
{
    let written = written_out(alloc, weights, sides)?;
    port_weights(alloc, declaration, &written, sides)
}

/// Which ports carry items.
fn carried(alloc: Global, sides: &[ItemType]) -> Result<Vec<bool>, AllocError>
    ensures { IfOk result (λ ports. ports.items ≡ map types.is_int sides.now) }
{
    sides.iter().map(|side| is_int(*side)).collect(alloc)
}

/// The splitter of a split-join whose children take this. Without items it isn't there, and its
/// weights aren't looked at.
pub fn split_dealt(
    alloc: Global,
    declaration: usize,
    split: &Split,
    sides: &[ItemType],
) -> Result<Option<Splitter>, ElabError>
    ensures { IsVerdict (option_map splitter_view)
        (spec.split_dealt declaration (split_view split.now) sides.now) result }
{
    if !has_items(sides) {
        return Ok(None);
    }
    match split {
        Split::ToEach => Ok(Some(Splitter::Duplicate(carried(alloc, sides)?))),
        Split::InTurn(weights) => {
            let weights = weights_for(alloc, declaration, weights, sides)?;
            Ok(Some(Splitter::Roundrobin(weights)))
        }
    }
}

/// The joiner of a split-join whose children give this.
pub fn join_dealt(
    alloc: Global,
    declaration: usize,
    join: &[i32],
    sides: &[ItemType],
) -> Result<Option<Vec<u32>>, ElabError>
    ensures { IsVerdict (option_map (λ dealt. dealt.items))
        (spec.join_dealt declaration join.now sides.now) result }
{
    if !has_items(sides) {
        return Ok(None);
    }
    Ok(Some(weights_for(alloc, declaration, join, sides)?))
}

/// What a loop's type is written to take; one without a type is taken to have items.
pub fn input_written(written: Option<StreamType>) -> ItemType
    ensures { result ≡ spec.input_written written }
{
    match written {
        None => ItemType::Int,
        Some(written) => written.input,
    }
}

/// What a loop's type is written to give.
pub fn output_written(written: Option<StreamType>) -> ItemType
    ensures { result ≡ spec.output_written written }
{
    match written {
        None => ItemType::Int,
        Some(written) => written.output,
    }
}

/// What comes to the outer port of a loop: where both weights are listed the first one tells, else
/// what is written.
fn outer_side(written: ItemType, weights: &[i32]) -> ItemType
    ensures { result ≡ spec.outer_side written weights.now }
{
    match weights {
        [first, _] => {
            if *first == 0 {
                ItemType::Void
            } else {
                ItemType::Int
            }
        }
        _ => written,
    }
}

/// The weights of a loop's outer port and of its port to the loop.
pub fn loop_weights(
    alloc: Global,
    declaration: usize,
    written: ItemType,
    weights: &[i32],
) -> Result<Vec<u32>, ElabError>
    ensures { IsVerdict (λ dealt. dealt.items) (spec.weighted declaration
        (spec.loop_weights written weights.now)) result }
{
    let sides = [outer_side(written, weights), ItemType::Int];
    weights_for(alloc, declaration, weights, &sides)
}

/// Which ports of a loop's splitter carry items, where it gives each item to both.
fn loop_carried(alloc: Global, written: ItemType) -> Result<Vec<bool>, AllocError>
    ensures { IfOk result (λ ports. ports.items ≡ types.is_int written ∷ true ∷ []) }
{
    [is_int(written), true].to_vec(alloc)
}

/// The splitter of a loop.
pub fn loop_splitter(
    alloc: Global,
    declaration: usize,
    written: ItemType,
    split: &Split,
) -> Result<Splitter, ElabError>
    ensures { IsVerdict splitter_view (spec.weighted declaration
        (spec.loop_splitter written (split_view split.now))) result }
{
    match split {
        Split::ToEach => Ok(Splitter::Duplicate(loop_carried(alloc, written)?)),
        Split::InTurn(weights) => {
            let weights = loop_weights(alloc, declaration, written, weights)?;
            Ok(Splitter::Roundrobin(weights))
        }
    }
}
