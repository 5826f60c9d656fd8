// Between which whole numbers the value of an expression lies, known from the text.

ghost use Rattle.std.specs.Prelude.{◌≡◌};
ghost use Rattle.strc_parse_tree.specs.View.{expr_view};
ghost use Rattle.strc_rate_intervals.specs.Intervals as spec;

use crate::constant::constant;
use crate::interval::{Interval, binary_interval, singleton, unary_interval};
use crate::interval_scope::IntervalScope;
use strc_parse_tree::tree::Expr;

/// The interval of an expression among these names, where it is known.
pub fn interval_of(value: &Expr, names: &IntervalScope) -> Option<Interval>
    ensures { result ≡ spec.interval_of names.now (expr_view value.now) }
{
    match value {
        Expr::Number(number) => Some(singleton(*number)),
        Expr::Read(name) => names.interval_of(name),
        Expr::Group(inner) => interval_of(inner, names),
        Expr::Unary(operator, operand) => match constant(value) {
            Some(number) => Some(singleton(number)),
            None => {
                let operand = interval_of(operand, names)?;
                unary_interval(*operator, operand)
            }
        },
        Expr::Binary(operator, left, right) => match constant(value) {
            Some(number) => Some(singleton(number)),
            None => {
                let left = interval_of(left, names)?;
                let right = interval_of(right, names)?;
                binary_interval(operator.kind(), left, right)
            }
        },
        Expr::Conditional(_, _, _) => match constant(value) {
            Some(number) => Some(singleton(number)),
            None => None,
        },
        Expr::Truth(_)
        | Expr::Element(_, _)
        | Expr::Pop
        | Expr::Peek(_, _)
        | Expr::Call(_, _)
        | Expr::Step(_, _)
        | Expr::StepElement(_, _, _) => None,
    }
}
