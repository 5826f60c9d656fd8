// The walk over expressions: it counts what it passes, and adds a site for each peek, in order of
// the text.

ghost use Rattle.std.specs.Prelude.{IfOk};
ghost use Rattle.std.specs.Option.{option_map};
ghost use Rattle.strc_parse_tree.specs.Tree as tree;
ghost use Rattle.strc_parse_tree.specs.View.{expr_view, listed_view};
ghost use Rattle.strc_rate.specs.Counts.{needed, branch_counts, expr_counts};
ghost use Rattle.strc_rate.specs.Entries.{peeks_of_expr};
ghost use Rattle.strc_rate.specs.Peeks.{expr_sites, right_sites, sides_sites};
ghost use Rattle.strc_rate.specs.Walk.{IsPassed, ExprIsPassed, OptionIsPassed, OperandsArePassed};
ghost use Rattle.strc_rate.specs.Walk.{ArgumentsArePassed};

use crate::counts::{Counts, Need, if_equal, need_of, no_items, one_pop, require_zero, sequence};
use crate::sight::{PeekSite, PopInterval, advance};
use crate::unreachable_peeks::skip_expression;
use strc_lex_names::memory::NoMemory;
use strc_parse_tree::tree::Expr;
use strc_rate_intervals::constant::constant;
use strc_rate_intervals::interval_scope::IntervalScope;
use strc_rate_intervals::intervals::interval_of;

/// Adds a site for each peek of an expression, in order of the text, and gives its counts.
#[cycle(expression)]
#[tactic(auto, using(crate::proofs::Passing::nothing_passed))]
pub(crate) fn check_peeks_in_expression(
    value: &Expr,
    names: &IntervalScope,
    popped: PopInterval,
    sites: &mut Vec<PeekSite>,
) -> Result<Option<Counts>, NoMemory>
    ensures { IfOk result (λ counts. ExprIsPassed names.now popped (expr_view value.now) counts
        sites.old.items sites.new.items) }
{
    match value {
        Expr::Number(_) | Expr::Truth(_) | Expr::Read(_) | Expr::Step(_, _) => {
            Ok(Some(no_items()))
        }
        Expr::Pop => Ok(Some(one_pop())),
        Expr::Call(_, arguments) => check_peeks_in_arguments(arguments, names, popped, sites),
        Expr::Peek(_, index) => check_peek(index, names, popped, sites),
        Expr::Element(_, inner)
        | Expr::Group(inner)
        | Expr::Unary(_, inner)
        | Expr::StepElement(_, _, inner) => {
            check_peeks_in_expression(inner, names, popped, sites)
        }
        Expr::Binary(operator, left, right) => {
            let need = need_of(operator.kind(), left);
            check_peeks_in_operands(need, left, right, names, popped, sites)
        }
        Expr::Conditional(condition, chosen, other) => {
            check_peeks_in_conditional(condition, chosen, other, names, popped, sites)
        }
    }
}

/// The same of a peek, which comes after those in its index.
#[cycle(expression)]
fn check_peek(
    index: &Expr,
    names: &IntervalScope,
    popped: PopInterval,
    sites: &mut Vec<PeekSite>,
) -> Result<Option<Counts>, NoMemory>
    ensures { IfOk result (λ counts. ExprIsPassed names.now popped (tree.Peek (expr_view index.now))
        counts sites.old.items sites.new.items) }
{
    let counts = check_peeks_in_expression(index, names, popped, sites)?;
    let here = advance(popped, counts);
    sites.push(PeekSite::Reached(interval_of(index, names), here))?;
    Ok(counts)
}

/// The same of the arguments of a call, each after the pops of those before.
#[cycle(expression)]
fn check_peeks_in_arguments(
    arguments: &[Expr],
    names: &IntervalScope,
    popped: PopInterval,
    sites: &mut Vec<PeekSite>,
) -> Result<Option<Counts>, NoMemory>
    ensures { IfOk result (λ counts. ArgumentsArePassed names.now popped
        (listed_view arguments.now) counts sites.old.items sites.new.items) }
{
    let mut counts = Some(no_items());
    let mut here = popped;
    for argument in arguments {
        let passed = check_peeks_in_expression(argument, names, here, sites)?;
        here = advance(here, passed);
        counts = sequence(counts, passed);
    }
    Ok(counts)
}

/// The same of two expressions in a row, of which the second may not be needed.
#[cycle(expression)]
pub(crate) fn check_peeks_in_operands(
    need: Need,
    left: &Expr,
    right: &Expr,
    names: &IntervalScope,
    popped: PopInterval,
    sites: &mut Vec<PeekSite>,
) -> Result<Option<Counts>, NoMemory>
    ensures { IfOk result (λ counts. OperandsArePassed names.now popped need (expr_view left.now)
        (expr_view right.now) counts sites.old.items sites.new.items) }
{
    let first = check_peeks_in_expression(left, names, popped, sites)?;
    let here = advance(popped, first);
    let second = check_peeks_in_right(need, right, names, here, sites)?;
    Ok(sequence(first, second))
}

/// The same of an operator's right side.
#[cycle(expression)]
fn check_peeks_in_right(
    need: Need,
    right: &Expr,
    names: &IntervalScope,
    popped: PopInterval,
    sites: &mut Vec<PeekSite>,
) -> Result<Option<Counts>, NoMemory>
    ensures { IfOk result (λ counts. IsPassed (needed need (expr_counts (expr_view right.now)))
        (right_sites need (expr_sites names.now popped (expr_view right.now))
        (peeks_of_expr (expr_view right.now))) names.now
        counts sites.old.items sites.new.items names.now) }
{
    match need {
        Need::Always => check_peeks_in_expression(right, names, popped, sites),
        Need::Never => {
            skip_expression(right, sites)?;
            Ok(Some(no_items()))
        }
        Need::Sometimes => {
            let second = check_peeks_in_expression(right, names, popped, sites)?;
            Ok(require_zero(second))
        }
    }
}

/// The same of a choice between two expressions.
#[cycle(expression)]
fn check_peeks_in_conditional(
    condition: &Expr,
    chosen: &Expr,
    other: &Expr,
    names: &IntervalScope,
    popped: PopInterval,
    sites: &mut Vec<PeekSite>,
) -> Result<Option<Counts>, NoMemory>
    ensures { IfOk result (λ counts. ExprIsPassed names.now popped
        (tree.Conditional (expr_view condition.now) (expr_view chosen.now) (expr_view other.now))
        counts sites.old.items sites.new.items) }
{
    let test = check_peeks_in_expression(condition, names, popped, sites)?;
    let here = advance(popped, test);
    let known = constant(condition);
    let taken = check_peeks_in_sides(known, chosen, other, names, here, sites)?;
    Ok(sequence(test, taken))
}

/// The same of both sides of a condition, of which a constant one never takes one.
#[cycle(expression)]
fn check_peeks_in_sides(
    condition: Option<i32>,
    chosen: &Expr,
    other: &Expr,
    names: &IntervalScope,
    popped: PopInterval,
    sites: &mut Vec<PeekSite>,
) -> Result<Option<Counts>, NoMemory>
    ensures { IfOk result (λ counts. IsPassed (branch_counts condition
        (expr_counts (expr_view chosen.now)) (expr_counts (expr_view other.now)))
        (sides_sites condition (expr_sites names.now popped (expr_view chosen.now))
        (expr_sites names.now popped (expr_view other.now)) (peeks_of_expr (expr_view chosen.now))
        (peeks_of_expr (expr_view other.now))) names.now
        counts sites.old.items sites.new.items names.now) }
{
    match condition {
        Some(0) => {
            skip_expression(chosen, sites)?;
            check_peeks_in_expression(other, names, popped, sites)
        }
        Some(_) => {
            let counts = check_peeks_in_expression(chosen, names, popped, sites)?;
            skip_expression(other, sites)?;
            Ok(counts)
        }
        None => {
            let chosen = check_peeks_in_expression(chosen, names, popped, sites)?;
            let other = check_peeks_in_expression(other, names, popped, sites)?;
            Ok(if_equal(chosen, other))
        }
    }
}

/// The same of an expression, where there is one.
pub(crate) fn check_peeks_in_option(
    value: &Option<Expr>,
    names: &IntervalScope,
    popped: PopInterval,
    sites: &mut Vec<PeekSite>,
) -> Result<Option<Counts>, NoMemory>
    ensures { IfOk result (λ counts. OptionIsPassed names.now popped
        (option_map expr_view value.now) counts sites.old.items sites.new.items) }
{
    match value {
        None => Ok(Some(no_items())),
        Some(value) => check_peeks_in_expression(value, names, popped, sites),
    }
}
