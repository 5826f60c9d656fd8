// What may be a mistake in an expression.

use crate::constants::{Folded, outcome_of};
use crate::finding::{Doubt, Finding};
use strc_lex_names::memory::NoMemory;
use strc_lex_names::place::Span;
use strc_parse_tree::tree::{BinaryOperator, Expr, UnaryOperator, Variables};

/// Looks at an expression of a statement that is written here.
pub(crate) fn look_at_value(
    value: &Expr,
    place: Option<Span>,
    findings: &mut Vec<Finding>,
) -> Result<(), NoMemory> {
    let _constant = look_at(value, place, false, findings)?;
    Ok(())
}

/// Looks at expressions in a row.
pub(crate) fn look_at_values(
    values: &[Expr],
    place: Option<Span>,
    findings: &mut Vec<Finding>,
) -> Result<(), NoMemory> {
    for value in values {
        look_at_value(value, place, findings)?;
    }
    Ok(())
}

/// Looks at an expression where there is one.
pub(crate) fn look_at_option(
    value: &Option<Expr>,
    place: Option<Span>,
    findings: &mut Vec<Finding>,
) -> Result<(), NoMemory> {
    match value {
        Some(value) => look_at_value(value, place, findings),
        None => Ok(()),
    }
}

/// Looks at the initial values of a declaration.
pub(crate) fn look_at_variables(
    declared: &Variables,
    findings: &mut Vec<Finding>,
) -> Result<(), NoMemory> {
    for variable in &declared.variables {
        look_at_option(&variable.initial, Some(declared.place), findings)?;
    }
    Ok(())
}

/// Looks at an expression, and gives its value where it is known to be this number. `is_masked`
/// says whether `&` takes a part of its bits.
#[cycle(look)]
fn look_at(
    value: &Expr,
    place: Option<Span>,
    is_masked: bool,
    findings: &mut Vec<Finding>,
) -> Result<Option<i32>, NoMemory> {
    match value {
        Expr::Number(number) => Ok(Some(*number)),
        Expr::Truth(_) | Expr::Read(_) | Expr::Pop | Expr::Step(_, _) => Ok(None),
        Expr::Group(inner) => look_at(inner, place, is_masked, findings),
        Expr::Unary(UnaryOperator::Negate, inner) => {
            let number = look_at(inner, place, false, findings)?;
            Ok(number.map(|number| number.wrapping_neg()))
        }
        Expr::Element(_, inner)
        | Expr::Peek(_, inner)
        | Expr::Unary(_, inner)
        | Expr::StepElement(_, _, inner) => {
            let _number = look_at(inner, place, false, findings)?;
            Ok(None)
        }
        Expr::Call(_, arguments) => look_at_arguments(arguments, place, findings),
        Expr::Binary(operator, left, right) => {
            let masks = matches!(operator.kind(), BinaryOperator::And);
            let first = look_at(left, place, masks, findings)?;
            let second = look_at(right, place, masks, findings)?;
            if !is_masked && keeps_sign(operator.kind(), left) {
                findings.push(Finding {
                    place,
                    doubt: Doubt::KeepsSign(second),
                })?;
            }
            value_of(operator.kind(), first, second, place, findings)
        }
        Expr::Conditional(condition, chosen, other) => {
            let _number = look_at(condition, place, false, findings)?;
            let _number = look_at(chosen, place, false, findings)?;
            let _number = look_at(other, place, false, findings)?;
            Ok(None)
        }
    }
}

/// Looks at the arguments of a call.
#[cycle(look)]
fn look_at_arguments(
    arguments: &[Expr],
    place: Option<Span>,
    findings: &mut Vec<Finding>,
) -> Result<Option<i32>, NoMemory> {
    for argument in arguments {
        let _number = look_at(argument, place, false, findings)?;
    }
    Ok(None)
}

/// The value of an operator of two constants, which may wrap.
fn value_of(
    operator: BinaryOperator,
    left: Option<i32>,
    right: Option<i32>,
    place: Option<Span>,
    findings: &mut Vec<Finding>,
) -> Result<Option<i32>, NoMemory> {
    let (Some(left), Some(right)) = (left, right) else {
        return Ok(None);
    };
    match outcome_of(operator, left, right) {
        Folded::Fits(value) => Ok(Some(value)),
        Folded::Unknown => Ok(None),
        Folded::Wraps(exact, wrapped) => {
            findings.push(Finding {
                place,
                doubt: Doubt::Wraps(exact, wrapped),
            })?;
            Ok(None)
        }
    }
}

/// Whether an operator is a shift to the right of what may be negative, and isn't computed as
/// numbers are: a product or a sum is scaled by the shift, and keeps its sign.
fn keeps_sign(operator: BinaryOperator, left: &Expr) -> bool {
    matches!(operator, BinaryOperator::ShiftRight) && !is_natural(left) && !is_computed(left)
}

/// Whether a value is a sum, a difference, a product or a quotient.
#[cycle(computed)]
fn is_computed(value: &Expr) -> bool {
    match value {
        Expr::Group(inner) => is_computed(inner),
        Expr::Unary(UnaryOperator::Negate, _) => true,
        Expr::Binary(operator, _, _) => match operator.kind() {
            BinaryOperator::Add
            | BinaryOperator::Subtract
            | BinaryOperator::Multiply
            | BinaryOperator::Divide => true,
            _ => false,
        },
        _ => false,
    }
}

/// Whether a number can be seen to be at least 0: it is a constant, or bits of it that a constant
/// takes.
#[cycle(natural)]
fn is_natural(value: &Expr) -> bool {
    match value {
        Expr::Number(number) => *number >= 0,
        Expr::Group(inner) => is_natural(inner),
        Expr::Binary(operator, left, right) => match operator.kind() {
            BinaryOperator::And => is_natural(left) || is_natural(right),
            BinaryOperator::ShiftRight => is_natural(left),
            _ => false,
        },
        _ => false,
    }
}
