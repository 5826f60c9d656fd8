// Which expressions have the same value in each evaluation, known from the text alone.

ghost use Rattle.std.specs.Prelude.{◌≡◌};
ghost use Rattle.strc_parse_tree.specs.View.{expr_view};
ghost use Rattle.strc_rate_intervals.specs.Constant as spec;

use strc_parse_tree::tree::Expr;
use strc_work_meaning::evaluation;

/// The value of an expression that is made of numbers, truth values and operators alone, and has no
/// fault.
pub fn constant(value: &Expr) -> Option<i32>
    ensures { result ≡ spec.constant (expr_view value.now) }
{
    if !is_constant(value) {
        return None;
    }
    match evaluation::constant_value(value) {
        Ok(number) => Some(number),
        Err(_) => None,
    }
}

/// Whether an expression names no variable, and takes, looks at and changes nothing.
fn is_constant(value: &Expr) -> bool
    ensures { result ≡ spec.is_constant (expr_view value.now) }
{
    match value {
        Expr::Number(_) | Expr::Truth(_) => true,
        Expr::Group(inner) | Expr::Unary(_, inner) => is_constant(inner),
        Expr::Binary(_, left, right) => is_constant(left) && is_constant(right),
        Expr::Conditional(condition, chosen, other) => {
            is_constant(condition) && (is_constant(chosen) && is_constant(other))
        }
        Expr::Read(_)
        | Expr::Element(_, _)
        | Expr::Pop
        | Expr::Peek(_, _)
        | Expr::Call(_, _)
        | Expr::Step(_, _)
        | Expr::StepElement(_, _, _) => false,
    }
}
