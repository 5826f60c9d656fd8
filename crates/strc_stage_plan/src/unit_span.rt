// Which numbers are within a unit of a round: it has nodes below them, and others.

ghost use Rattle.std.specs.Prelude.{◌≡◌, ℕ, ◌<◌, ◌≤◌, ◌&&◌, ◌||◌, nat_lt, nat_le, All, length};
ghost use Rattle.std.specs.Prelude.{slice_index_or, false, IfOk, IfSome, IfNone, []};
ghost use Rattle.strc_sched_orders.specs.Peaks.{HasNodes};
ghost use Rattle.strc_fuse.specs.Units.{round_unit, round_units};
ghost use Rattle.strc_stage_plan.specs.Bounds as spec;
ghost use Rattle.strc_stage_plan.specs.Spans.{IsSpanOf};

use std::alloc::{AllocError, Global};
use strc_sched_orders::unit::Unit;

/// The lowest and the highest node of a list.
#[derive(Clone, Copy)]
pub(crate) struct Span {
    pub least: u32,
    pub greatest: u32,
}

/// For each of so many numbers, whether it is within a unit.
pub(crate) fn parted_units(
    alloc: Global,
    nodes: usize,
    round: &[Unit],
) -> Result<Vec<bool>, AllocError>
    requires { All (HasNodes nodes) round.now }
    ensures each { IfOk result (λ marks. length marks.items ≡ nodes) }
    ensures marks { IfOk result (λ marks. (number : ℕ) → number < nodes
        → slice_index_or marks.items number false
        ≡ spec.parts_unit (round_units round.now) number) }
{
    let mut marks = Vec::from_elem(alloc, false, nodes)?;
    mark_units(&mut marks, round);
    Ok(marks)
}

/// Marks the numbers that are within units.
fn mark_units(marks: &mut [bool], round: &[Unit])
    requires { All (HasNodes (length marks.old)) round.now }
    ensures each { length marks.new ≡ length marks.old }
    ensures marks { (number : ℕ) → number < length marks.old
        → slice_index_or marks.new number false
        ≡ slice_index_or marks.old number false
        || spec.parts_unit (round_units round.now) number }
{
    for unit in round {
        mark_unit(marks, unit);
    }
}

/// Marks the numbers that are within a unit.
fn mark_unit(marks: &mut [bool], unit: &Unit)
    requires { HasNodes (length marks.old) unit.now }
    ensures each { length marks.new ≡ length marks.old }
    ensures marks { (number : ℕ) → number < length marks.old
        → slice_index_or marks.new number false
        ≡ slice_index_or marks.old number false || spec.is_parted number (round_unit unit.now) }
{
    if let Some(span) = span_of(&unit.nodes) {
        mark_between(marks, span.least as usize, span.greatest as usize);
    }
}

/// Marks the numbers above one and up to another.
fn mark_between(marks: &mut [bool], least: usize, greatest: usize)
    requires within { greatest < length marks.old }
    requires rising { least ≤ greatest }
    ensures each { length marks.new ≡ length marks.old }
    ensures marks { (number : ℕ) → number < length marks.old
        → slice_index_or marks.new number false
        ≡ slice_index_or marks.old number false
        || (nat_lt least number && nat_le number greatest) }
{
    for number in least + 1..greatest + 1 {
        marks[number] = true;
    }
}

/// The span of a list's nodes, where there are some.
fn span_of(nodes: &[u32]) -> Option<Span>
    ensures is { IfSome result (IsSpanOf nodes.now) }
    ensures none { IfNone result (nodes.now ≡ []) }
{
    let (first, later) = nodes.split_first()?;
    let mut span = Span {
        least: *first,
        greatest: *first,
    };
    for node in later {
        span.least = span.least.min(*node);
        span.greatest = span.greatest.max(*node);
    }
    Some(span)
}
