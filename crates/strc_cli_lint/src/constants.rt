// What operators of constants come to.

ghost use Rattle.std.specs.Prelude.{◌≡◌, IfSome, Some};
ghost use Rattle.strc_cli_lint.specs.Constants as spec;

use strc_parse_tree::tree::BinaryOperator;

/// What an operator of two constants comes to, where it is a sum, a difference or a product.
#[derive(Clone, Copy)]
pub(crate) enum Folded {
    /// A number of 32 bits.
    Fits(i32),
    /// A number past 32 bits, and what is left of it.
    Wraps(i64, i32),
    Unknown,
}

/// What an operator comes to.
pub(crate) fn outcome_of(operator: BinaryOperator, left: i32, right: i32) -> Folded {
    let Some(exact) = exact(operator, left, right) else {
        return Folded::Unknown;
    };
    match i32::try_from(exact) {
        Ok(value) => Folded::Fits(value),
        Err(_) => Folded::Wraps(exact, wrapped(operator, left, right)),
    }
}

/// The sum, the difference or the product without wrapping.
fn exact(operator: BinaryOperator, left: i32, right: i32) -> Option<i64>
    ensures { IfSome result (λ exact. spec.exact operator left right ≡ Some exact) }
{
    let (left, right) = (i64::from(left), i64::from(right));
    match operator {
        BinaryOperator::Add => left.checked_add(right),
        BinaryOperator::Subtract => left.checked_sub(right),
        BinaryOperator::Multiply => left.checked_mul(right),
        _ => None,
    }
}

/// The same with wrapping.
fn wrapped(operator: BinaryOperator, left: i32, right: i32) -> i32 {
    match operator {
        BinaryOperator::Add => left.wrapping_add(right),
        BinaryOperator::Subtract => left.wrapping_sub(right),
        _ => left.wrapping_mul(right),
    }
}
