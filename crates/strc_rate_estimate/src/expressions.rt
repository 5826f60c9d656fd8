// Estimates of expressions.

ghost use Rattle.std.specs.Prelude.{◌≡◌, map, max};
ghost use Rattle.std.specs.Option.{option_map};
ghost use Rattle.strc_parse_tree.specs.View.{expr_view, listed_view, variable_view};
ghost use Rattle.strc_rate_estimate.specs.Estimates as spec;
ghost use Rattle.strc_rate_estimate.specs.Tables.{helper_view};

use crate::calls::{HelperEstimate, call_estimate};
use crate::sums::sum;
use strc_parse_tree::tree::{Expr, Variable};

/// The estimate of an expression.
#[cycle(expression)]
pub(crate) fn expression_estimate(value: &Expr, helpers: &[HelperEstimate<'_>]) -> u32
    ensures { result ≡ spec.expr_estimate (map helper_view helpers.now) (expr_view value.now) }
{
    match value {
        Expr::Number(_) | Expr::Truth(_) | Expr::Read(_) | Expr::Pop | Expr::Step(_, _) => 1,
        Expr::Call(name, arguments) => sum(
            call_estimate(helpers, name),
            arguments_estimate(arguments, helpers),
        ),
        Expr::Group(inner) => expression_estimate(inner, helpers),
        Expr::Peek(_, inner)
        | Expr::Element(_, inner)
        | Expr::Unary(_, inner)
        | Expr::StepElement(_, _, inner) => sum(1, expression_estimate(inner, helpers)),
        Expr::Binary(_, left, right) => sum(1, operands_estimate(left, right, helpers)),
        Expr::Conditional(condition, chosen, other) => {
            let tested = sum(1, expression_estimate(condition, helpers));
            sum(tested, sides_estimate(chosen, other, helpers))
        }
    }
}

/// The estimate of two expressions in a row.
#[cycle(expression)]
pub(crate) fn operands_estimate(left: &Expr, right: &Expr, helpers: &[HelperEstimate<'_>]) -> u32
    ensures { result ≡ spec.sum (spec.expr_estimate (map helper_view helpers.now)
        (expr_view left.now)) (spec.expr_estimate (map helper_view helpers.now)
        (expr_view right.now)) }
{
    sum(
        expression_estimate(left, helpers),
        expression_estimate(right, helpers),
    )
}

/// The greater estimate of two expressions, of which one is evaluated.
#[cycle(expression)]
fn sides_estimate(chosen: &Expr, other: &Expr, helpers: &[HelperEstimate<'_>]) -> u32
    ensures { result ≡ max (spec.expr_estimate (map helper_view helpers.now)
        (expr_view chosen.now)) (spec.expr_estimate (map helper_view helpers.now)
        (expr_view other.now)) }
{
    expression_estimate(chosen, helpers).max(expression_estimate(other, helpers))
}

/// The estimate of the arguments of a call.
#[cycle(expression)]
fn arguments_estimate(arguments: &[Expr], helpers: &[HelperEstimate<'_>]) -> u32
    ensures { result ≡ spec.arguments_estimate (map helper_view helpers.now)
        (listed_view arguments.now) }
{
    let mut total = 0;
    for argument in arguments {
        total = sum(total, expression_estimate(argument, helpers));
    }
    total
}

/// The estimate of an expression where there is one.
pub(crate) fn option_estimate(value: &Option<Expr>, helpers: &[HelperEstimate<'_>]) -> u32
    ensures { result ≡ spec.option_estimate (map helper_view helpers.now)
        (option_map expr_view value.now) }
{
    match value {
        Some(value) => expression_estimate(value, helpers),
        None => 0,
    }
}

/// The estimate of the initial values of a declaration.
pub(crate) fn variables_estimate(variables: &[Variable], helpers: &[HelperEstimate<'_>]) -> u32
    ensures { result ≡ spec.variables_estimate (map helper_view helpers.now)
        (map variable_view variables.now) }
{
    let mut total = 0;
    for variable in variables {
        total = sum(total, option_estimate(&variable.initial, helpers));
    }
    total
}
