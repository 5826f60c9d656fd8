// The values of constant expressions.

ghost use Rattle.std.specs.Prelude.{◌≡◌};
ghost use Rattle.strc_parse_tree.specs.View.{expr_view};
ghost use Rattle.strc_work_meaning.specs.Arithmetic as spec;
ghost use Rattle.strc_work_meaning.specs.Constants as constants;

use crate::arithmetic;
use crate::fault::Cause;
use strc_parse_tree::tree::{BinaryOperator, Expr, UnaryOperator};

/// The value of a constant expression. What can't be in one faults.
pub fn constant_value(value: &Expr) -> Result<i32, Cause>
    ensures { result ≡ constants.constant_value (expr_view value.now) }
{
    match value {
        Expr::Number(number) => Ok(*number),
        Expr::Truth(truth) => Ok(arithmetic::truth(*truth)),
        Expr::Group(inner) => constant_value(inner),
        Expr::Unary(operator, operand) => match constant_value(operand) {
            Ok(operand) => Ok(unary_value(*operator, operand)),
            Err(cause) => Err(cause),
        },
        Expr::Binary(operator, left, right) => match constant_value(left) {
            Ok(left) => {
                if decides(operator.kind(), left) {
                    return Ok(left);
                }
                match constant_value(right) {
                    Ok(right) => binary_value(operator.kind(), left, right),
                    Err(cause) => Err(cause),
                }
            }
            Err(cause) => Err(cause),
        },
        Expr::Conditional(condition, chosen, other) => match constant_value(condition) {
            Ok(test) => {
                if is_true(test) {
                    constant_value(chosen)
                } else {
                    constant_value(other)
                }
            }
            Err(cause) => Err(cause),
        },
        Expr::Read(_)
        | Expr::Element(_, _)
        | Expr::Pop
        | Expr::Peek(_, _)
        | Expr::Call(_, _)
        | Expr::Step(_, _)
        | Expr::StepElement(_, _, _) => Err(Cause::Index),
    }
}

/// Whether a truth value's number is that of `true`.
pub fn is_true(value: i32) -> bool
    ensures { result ≡ spec.is_true value }
{
    value != 0
}

/// Whether the left side's value is the operator's, so that the right side doesn't count.
pub fn decides(operator: BinaryOperator, left: i32) -> bool
    ensures { result ≡ constants.decides operator left }
{
    match operator {
        BinaryOperator::LogicalOr => is_true(left),
        BinaryOperator::LogicalAnd => !is_true(left),
        _ => false,
    }
}

/// The value of an operator before its operand.
pub fn unary_value(operator: UnaryOperator, value: i32) -> i32
    ensures { result ≡ spec.unary_value operator value }
{
    match operator {
        UnaryOperator::Negate => arithmetic::negate(value),
        UnaryOperator::Not => arithmetic::flip(value),
        UnaryOperator::Complement => !value,
    }
}

/// The value of an operator, where both sides count.
pub fn binary_value(operator: BinaryOperator, left: i32, right: i32) -> Result<i32, Cause>
    ensures { result ≡ spec.binary_value operator left right }
{
    match operator {
        BinaryOperator::LogicalOr | BinaryOperator::LogicalAnd => Ok(right),
        BinaryOperator::Or => Ok(left | right),
        BinaryOperator::ExclusiveOr => Ok(left ^ right),
        BinaryOperator::And => Ok(left & right),
        BinaryOperator::Equal => Ok(arithmetic::truth(left == right)),
        BinaryOperator::NotEqual => Ok(arithmetic::truth(left != right)),
        BinaryOperator::Less => Ok(arithmetic::truth(left < right)),
        BinaryOperator::LessOrEqual => Ok(arithmetic::truth(left <= right)),
        BinaryOperator::Greater => Ok(arithmetic::truth(left > right)),
        BinaryOperator::GreaterOrEqual => Ok(arithmetic::truth(left >= right)),
        BinaryOperator::ShiftLeft => Ok(arithmetic::shift_left(left, right)),
        BinaryOperator::ShiftRight => Ok(arithmetic::shift_right(left, right)),
        BinaryOperator::Add => Ok(arithmetic::sum(left, right)),
        BinaryOperator::Subtract => Ok(arithmetic::difference(left, right)),
        BinaryOperator::Multiply => Ok(arithmetic::product(left, right)),
        BinaryOperator::Divide => {
            if right == 0 {
                return Err(Cause::DivZero);
            }
            Ok(arithmetic::divide(left, right))
        }
        BinaryOperator::Remainder => {
            if right == 0 {
                return Err(Cause::DivZero);
            }
            Ok(arithmetic::rest(left, right))
        }
    }
}
