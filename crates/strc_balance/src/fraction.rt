// Counts as fractions of node 0's.

ghost use Rattle.std.specs.Prelude.{◌≡◌, ◌<◌, IfSome, IfNone, Some, true, false};
ghost use Rattle.std.specs.Int.{IsGcd};
ghost use Rattle.strc_balance.specs.Divisors as spec;
ghost use Rattle.strc_balance.specs.Balance.{fraction_passes};

/// The greatest count of a node in a round or in start-up, and the greatest part of a fraction.
pub const COUNT_LIMIT: u128 = 1_000_000;

/// A count as a fraction of another one, in lowest terms.
#[derive(Clone, Copy)]
pub(crate) struct Fraction {
    pub top: u32,
    pub bottom: u32,
}

/// The greatest common divisor, by Euclid's algorithm.
pub(crate) fn greatest_divisor(first: u128, second: u128) -> u128
    ensures { IsGcd first second result }
{
    let mut greater = first;
    let mut lesser = second;
    while lesser != 0 {
        let rest = greater % lesser;
        greater = lesser;
        lesser = rest;
    }
    greater
}

/// A fraction in lowest terms; nothing where a part of it passes the limit.
pub(crate) fn lowest_terms(top: u128, bottom: u128) -> Option<Fraction>
    requires { 0 < top }
    ensures lowest { IfSome result (λ fraction. fraction ≡ spec.lowest_terms top bottom) }
    ensures within { IfSome result (λ fraction. fraction_passes (Some fraction) ≡ false) }
    ensures passes { IfNone result (fraction_passes (Some (spec.lowest_terms top bottom)) ≡ true) }
{
    let divisor = greatest_divisor(top, bottom);
    let lowest_top = top / divisor;
    let lowest_bottom = bottom / divisor;
    if lowest_top > COUNT_LIMIT {
        return None;
    }
    if lowest_bottom > COUNT_LIMIT {
        return None;
    }
    Some(Fraction {
        top: lowest_top as u32,
        bottom: lowest_bottom as u32,
    })
}
