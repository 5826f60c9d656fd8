// How many items a part of a text pushes and pops.

ghost use Rattle.std.specs.Prelude.{◌≡◌, ◌+◌, ◌*◌};
ghost use Rattle.strc_parse_tree.specs.View.{expr_view};
ghost use Rattle.strc_rate.specs.Counts as spec;

use strc_parse_tree::tree::{BinaryOperator, Expr};
use strc_rate_intervals::constant::constant;

/// From here on a count is saturated.
pub const COUNT_LIMIT: u32 = 65537;

/// So many items, each number saturated at 65,537.
#[derive(Clone, Copy)]
pub struct Counts {
    pub pushes: u32,
    pub pops: u32,
}

/// When an operator's right side is evaluated.
#[derive(Clone, Copy)]
pub(crate) enum Need {
    Always,
    Never,
    Sometimes,
}

pub(crate) fn no_items() -> Counts
    ensures { result ≡ spec.no_items }
{
    Counts { pushes: 0, pops: 0 }
}

pub(crate) fn one_push() -> Counts
    ensures { result ≡ spec.one_push }
{
    Counts { pushes: 1, pops: 0 }
}

pub(crate) fn one_pop() -> Counts
    ensures { result ≡ spec.one_pop }
{
    Counts { pushes: 0, pops: 1 }
}

/// One after the other.
pub(crate) fn sequence(first: Option<Counts>, second: Option<Counts>) -> Option<Counts>
    ensures { result ≡ spec.sequence first second }
{
    match first {
        Some(first) => match second {
            Some(second) => Some(Counts {
                pushes: saturating_sum(first.pushes, second.pushes),
                pops: saturating_sum(first.pops, second.pops),
            }),
            None => None,
        },
        None => None,
    }
}

/// One or the other, which must count the same.
pub(crate) fn if_equal(first: Option<Counts>, second: Option<Counts>) -> Option<Counts>
    ensures { result ≡ spec.if_equal first second }
{
    match first {
        Some(first) => match second {
            Some(second) => if_same(first, second),
            None => None,
        },
        None => None,
    }
}

/// What may be left out, or run several times, must count nothing.
pub(crate) fn require_zero(counts: Option<Counts>) -> Option<Counts>
    ensures { result ≡ spec.require_zero counts }
{
    match counts {
        Some(counts) => if_same(no_items(), counts),
        None => None,
    }
}

fn if_same(first: Counts, second: Counts) -> Option<Counts>
    ensures { result ≡ spec.if_same first second }
{
    if first.pushes == second.pushes && first.pops == second.pops {
        Some(first)
    } else {
        None
    }
}

/// So many times; nothing is looked at for none.
pub(crate) fn repeated(times: u64, counts: Option<Counts>) -> Option<Counts>
    ensures { result ≡ spec.repeated times counts }
{
    if times == 0 {
        return Some(no_items());
    }
    match counts {
        Some(counts) => Some(Counts {
            pushes: saturating_product(times, counts.pushes),
            pops: saturating_product(times, counts.pops),
        }),
        None => None,
    }
}

/// When the right side of an operator is evaluated after this left side.
pub(crate) fn need_of(operator: BinaryOperator, left: &Expr) -> Need
    ensures { result ≡ spec.need_of operator (expr_view left.now) }
{
    match operator {
        BinaryOperator::LogicalOr => match constant(left) {
            Some(0) => Need::Always,
            Some(_) => Need::Never,
            None => Need::Sometimes,
        },
        BinaryOperator::LogicalAnd => match constant(left) {
            Some(0) => Need::Never,
            Some(_) => Need::Always,
            None => Need::Sometimes,
        },
        _ => Need::Always,
    }
}

/// The sum of two numbers, saturated.
pub(crate) fn saturating_sum(first: u32, second: u32) -> u32
    ensures { result ≡ spec.saturated (first + second) }
{
    first.saturating_add(second).min(COUNT_LIMIT)
}

/// The product of two numbers, saturated.
pub(crate) fn saturating_product(times: u64, count: u32) -> u32
    ensures { result ≡ spec.saturated (times * count) }
{
    times
        .saturating_mul(u64::from(count))
        .min(u64::from(COUNT_LIMIT)) as u32
}
