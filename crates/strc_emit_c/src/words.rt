// The names that C has for operators, causes and counters.

ghost use Rattle.std.specs.Prelude.{◌≡◌, codes};
ghost use Rattle.strc_emit_c.specs.Spelling as spelling;

use strc_parse_tree::tree::{BinaryOperator, UnaryOperator};
use strc_work_meaning::fault::Cause;

/// The C function of an operator before its operand.
pub fn unary_name(operator: UnaryOperator) -> &'static [u8]
    ensures { result.now ≡ spelling.unary_name operator }
{
    match operator {
        UnaryOperator::Negate => b"negate",
        UnaryOperator::Not => b"flip",
        UnaryOperator::Complement => b"complement",
    }
}

/// The C function of an operator between its operands.
pub fn binary_name(operator: BinaryOperator) -> &'static [u8]
    ensures { result.now ≡ spelling.binary_name operator }
{
    match operator {
        BinaryOperator::LogicalOr | BinaryOperator::LogicalAnd => b"second",
        BinaryOperator::Or => b"bit_or",
        BinaryOperator::ExclusiveOr => b"exclusive_or",
        BinaryOperator::And => b"bit_and",
        BinaryOperator::Equal => b"equal",
        BinaryOperator::NotEqual => b"not_equal",
        BinaryOperator::Less => b"less",
        BinaryOperator::LessOrEqual => b"less_or_equal",
        BinaryOperator::Greater => b"greater",
        BinaryOperator::GreaterOrEqual => b"greater_or_equal",
        BinaryOperator::ShiftLeft => b"shift_left",
        BinaryOperator::ShiftRight => b"shift_right",
        BinaryOperator::Add => b"add",
        BinaryOperator::Subtract => b"subtract",
        BinaryOperator::Multiply => b"multiply",
        BinaryOperator::Divide => b"quotient",
        BinaryOperator::Remainder => b"remainder_of",
    }
}

/// What C calls a cause.
pub fn cause_name(cause: Cause) -> &'static [u8]
    ensures { result.now ≡ spelling.cause_name cause }
{
    match cause {
        Cause::DivZero => b"DIV_ZERO",
        Cause::Index => b"INDEX",
        Cause::PeekRange => b"PEEK_RANGE",
        Cause::Turns => b"TURNS",
        Cause::Calls => b"CALLS",
    }
}
