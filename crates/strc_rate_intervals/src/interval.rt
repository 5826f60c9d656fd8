// Between which whole numbers a value lies.

ghost use Rattle.std.specs.Prelude.{◌≡◌, neg_ℤ, ◌+ℤ◌, ◌-ℤ◌, ◌*ℤ◌, if◌then◌else◌};
ghost use Rattle.std.specs.Int.{int_min, int_max};
ghost use Rattle.strc_rate_intervals.specs.Loops.{within_32_bits};
ghost use Rattle.strc_rate_intervals.specs.Intervals as spec;

use strc_parse_tree::tree::{BinaryOperator, UnaryOperator};

/// A least and a greatest number.
#[derive(Clone, Copy)]
pub struct Interval {
    pub low: i32,
    pub high: i32,
}

/// One number.
pub fn singleton(value: i32) -> Interval
    ensures { result ≡ spec.singleton value }
{
    Interval {
        low: value,
        high: value,
    }
}

/// The numbers between two, in either order.
pub fn between(first: i32, second: i32) -> Interval
    ensures { result ≡ record { low = int_min first second; high = int_max first second } }
{
    Interval {
        low: first.min(second),
        high: first.max(second),
    }
}

/// The interval of an operator before its operand.
pub fn unary_interval(operator: UnaryOperator, operand: Interval) -> Option<Interval>
    ensures { result ≡ spec.unary_interval operator operand }
{
    match operator {
        UnaryOperator::Negate => known(negated(operand.high), negated(operand.low)),
        _ => None,
    }
}

/// The interval of an operator between its operands.
pub fn binary_interval(
    operator: BinaryOperator,
    first: Interval,
    second: Interval,
) -> Option<Interval>
    ensures { result ≡ spec.binary_interval operator first second }
{
    match operator {
        BinaryOperator::Add => { known(sum(first.low, second.low), sum(first.high, second.high)) }
        BinaryOperator::Subtract => {
            known(
                difference(first.low, second.high),
                difference(first.high, second.low),
            )
        }
        BinaryOperator::Multiply => multiplied(first, second),
        _ => None,
    }
}

/// The products of the bounds are the ends of the products.
fn multiplied(first: Interval, second: Interval) -> Option<Interval>
    ensures { result ≡ spec.intervals_multiplied first second }
{
    known(
        lowest_product(first, second),
        highest_product(first, second),
    )
}

fn lowest_product(first: Interval, second: Interval) -> i64
    ensures { result ≡ int_min (int_min (first.low *ℤ second.low) (first.low *ℤ second.high))
        (int_min (first.high *ℤ second.low) (first.high *ℤ second.high)) }
{
    lower_product(first.low, second).min(lower_product(first.high, second))
}

fn lower_product(first: i32, second: Interval) -> i64
    ensures { result ≡ int_min (first *ℤ second.low) (first *ℤ second.high) }
{
    product(first, second.low).min(product(first, second.high))
}

fn highest_product(first: Interval, second: Interval) -> i64
    ensures { result ≡ int_max (int_max (first.low *ℤ second.low) (first.low *ℤ second.high))
        (int_max (first.high *ℤ second.low) (first.high *ℤ second.high)) }
{
    higher_product(first.low, second).max(higher_product(first.high, second))
}

fn higher_product(first: i32, second: Interval) -> i64
    ensures { result ≡ int_max (first *ℤ second.low) (first *ℤ second.high) }
{
    product(first, second.low).max(product(first, second.high))
}

fn negated(value: i32) -> i64
    ensures { result ≡ neg_ℤ value }
{
    -i64::from(value)
}

fn sum(first: i32, second: i32) -> i64
    ensures { result ≡ first +ℤ second }
{
    i64::from(first) + i64::from(second)
}

fn difference(first: i32, second: i32) -> i64
    ensures { result ≡ first -ℤ second }
{
    i64::from(first) - i64::from(second)
}

fn product(first: i32, second: i32) -> i64
    ensures { result ≡ first *ℤ second }
{
    i64::from(first) * i64::from(second)
}

/// An interval is known only where 32 bits hold its bounds.
fn known(low: i64, high: i64) -> Option<Interval>
    ensures { result ≡ spec.known (record { low = low; high = high }) }
{
    match to_i32(low) {
        Some(low) => match to_i32(high) {
            Some(high) => Some(Interval { low, high }),
            None => None,
        },
        None => None,
    }
}

/// A whole number in 32 bits, where they hold it.
pub fn to_i32(value: i64) -> Option<i32>
    ensures { result ≡ (if within_32_bits value then Some value else None) }
{
    if value < -2147483648 {
        return None;
    }
    if value > 2147483647 {
        return None;
    }
    Some(value as i32)
}
