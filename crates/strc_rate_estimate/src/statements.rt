// Estimates of statements.

ghost use Rattle.std.specs.Prelude.{◌≡◌, map, max};
ghost use Rattle.std.specs.Option.{option_map};
ghost use Rattle.strc_parse_tree.specs.View.{block_view, expr_view, stmt_view};
ghost use Rattle.strc_rate_intervals.specs.Intervals.{names_of};
ghost use Rattle.strc_rate_estimate.specs.Estimates as spec;
ghost use Rattle.strc_rate_estimate.specs.Tables.{helper_view};

use crate::calls::HelperEstimate;
use crate::expressions::{
    expression_estimate, operands_estimate, option_estimate, variables_estimate,
};
use crate::sums::{LOOP_TURNS, product, sum};
use strc_parse_tree::tree::{Expr, Stmt};
use strc_rate_intervals::interval_scope::IntervalScope;
use strc_rate_intervals::loops::counted_loop;

/// The estimate of statements in a row.
#[cycle(statement)]
pub(crate) fn block_estimate(
    block: &[Stmt],
    names: &IntervalScope,
    helpers: &[HelperEstimate<'_>],
) -> u32
    ensures { result ≡ spec.block_estimate (names_of names.now) (map helper_view helpers.now)
        (block_view block.now) }
{
    let mut total = 0;
    for statement in block {
        total = sum(total, statement_estimate(statement, names, helpers));
    }
    total
}

/// The estimate of a statement.
#[cycle(statement)]
fn statement_estimate(
    statement: &Stmt,
    names: &IntervalScope,
    helpers: &[HelperEstimate<'_>],
) -> u32
    ensures { result ≡ spec.stmt_estimate (names_of names.now) (map helper_view helpers.now)
        (stmt_view statement.now) }
{
    match statement {
        Stmt::Empty | Stmt::Compose(_) => 0,
        Stmt::Block(body) => block_estimate(body, names, helpers),
        Stmt::Placed(_, inner) => statement_estimate(inner, names, helpers),
        Stmt::Declare(declared) => variables_estimate(&declared.variables, helpers),
        Stmt::Return(value) => option_estimate(value, helpers),
        Stmt::Evaluate(value) => expression_estimate(value, helpers),
        Stmt::Assign(_, _, value) | Stmt::Push(value) | Stmt::Print(value) | Stmt::Println(value) =>
            sum(1, expression_estimate(value, helpers)),
        Stmt::AssignElement(_, index, _, value) => sum(1, operands_estimate(index, value, helpers)),
        Stmt::If(condition, chosen) => sum(
            tested_estimate(condition, helpers),
            statement_estimate(chosen, names, helpers),
        ),
        Stmt::IfElse(condition, chosen, other) => sum(
            tested_estimate(condition, helpers),
            branches_estimate(chosen, other, names, helpers),
        ),
        Stmt::While(condition, body) => product(
            LOOP_TURNS,
            sum(
                tested_estimate(condition, helpers),
                statement_estimate(body, names, helpers),
            ),
        ),
        Stmt::For(first, condition, step, body) => {
            let turns = turns_of(first, condition, step, body, names);
            sum(
                statement_estimate(first, names, helpers),
                product(turns, turn_estimate(condition, step, body, names, helpers)),
            )
        }
    }
}

/// The estimate of a condition and what it decides.
fn tested_estimate(condition: &Expr, helpers: &[HelperEstimate<'_>]) -> u32
    ensures { result ≡ spec.sum 1 (spec.expr_estimate (map helper_view helpers.now)
        (expr_view condition.now)) }
{
    sum(1, expression_estimate(condition, helpers))
}

/// The greater estimate of two branches, of which one is run.
#[cycle(statement)]
fn branches_estimate(
    chosen: &Stmt,
    other: &Stmt,
    names: &IntervalScope,
    helpers: &[HelperEstimate<'_>],
) -> u32
    ensures { result ≡ max (spec.stmt_estimate (names_of names.now) (map helper_view helpers.now)
        (stmt_view chosen.now)) (spec.stmt_estimate (names_of names.now)
        (map helper_view helpers.now) (stmt_view other.now)) }
{
    statement_estimate(chosen, names, helpers).max(statement_estimate(other, names, helpers))
}

/// The estimate of a turn of a `for`.
#[cycle(statement)]
fn turn_estimate(
    condition: &Option<Expr>,
    step: &Stmt,
    body: &Stmt,
    names: &IntervalScope,
    helpers: &[HelperEstimate<'_>],
) -> u32
    ensures { result ≡ spec.turn_estimate (spec.option_estimate (map helper_view helpers.now)
        (option_map expr_view condition.now))
        (spec.stmt_estimate (names_of names.now) (map helper_view helpers.now) (stmt_view step.now))
        (spec.stmt_estimate (names_of names.now) (map helper_view helpers.now)
        (stmt_view body.now)) }
{
    let tested = sum(1, option_estimate(condition, helpers));
    let stepped = sum(tested, statement_estimate(step, names, helpers));
    sum(stepped, statement_estimate(body, names, helpers))
}

/// How many turns of a `for` are counted, or how many are supposed.
fn turns_of(
    first: &Stmt,
    condition: &Option<Expr>,
    step: &Stmt,
    body: &Stmt,
    names: &IntervalScope,
) -> u64
    ensures { result ≡ spec.turns_of (names_of names.now) (stmt_view first.now)
        (option_map expr_view condition.now) (stmt_view step.now) (stmt_view body.now) }
{
    match counted_loop(names, first, condition, step, body) {
        Some(counted) => counted.turns,
        None => LOOP_TURNS,
    }
}
