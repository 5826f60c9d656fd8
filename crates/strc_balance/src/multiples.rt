// Fractions of node 0's count, made whole.

ghost use Rattle.std.specs.Prelude.{◌≡◌, ◌<◌, ◌≤◌, ◌^◌, ℕ, IfOk, IfErr, IfSome, IfNone, map, true};
ghost use Rattle.std.specs.Prelude.{false};
ghost use Rattle.std.specs.List.{list_any};
ghost use Rattle.strc_balance.specs.Divisors as divisors;
ghost use Rattle.strc_balance.specs.Balance as spec;
ghost use Rattle.strc_balance.specs.Balance.{count_limit, passes};
ghost use Rattle.strc_balance.specs.Frontiers.{ArePositive, IsLargeOrMemory};

use crate::error::BalanceError;
use crate::fraction::{COUNT_LIMIT, Fraction, greatest_divisor};
use std::alloc::Global;

/// The least number that makes each fraction whole; nothing where it passes the limit.
pub(crate) fn scale_of(fractions: &[Option<Fraction>]) -> Option<u128>
    requires { ArePositive fractions.now }
    ensures found { IfSome result (λ scale. scale ≡ spec.scale_from 1 fractions.now) }
    ensures within { IfSome result (λ scale. scale ≤ count_limit) }
    ensures passes { IfNone result (passes (spec.scale_from 1 fractions.now) ≡ true) }
{
    let mut scale = 1;
    for fraction in fractions {
        if let Some(fraction) = fraction {
            scale = multiple(scale, u128::from(fraction.bottom));
            if scale > COUNT_LIMIT {
                return None;
            }
        }
    }
    Some(scale)
}

/// The least common multiple.
fn multiple(first: u128, second: u128) -> u128
    requires some { 0 < first }
    requires first { first < 2 ^ 64 }
    requires second { second < 2 ^ 64 }
    ensures { result ≡ divisors.multiple first second }
{
    first * (second / greatest_divisor(first, second))
}

/// The counts: so many times the fractions.
pub(crate) fn whole_counts(
    alloc: Global,
    fractions: &[Option<Fraction>],
    scale: u128,
) -> Result<Vec<u32>, BalanceError>
    requires positive { ArePositive fractions.now }
    requires within { scale ≤ count_limit }
    ensures found { IfOk result (λ counts. counts.items
        ≡ map (spec.whole_count scale) fractions.now) }
    ensures within { IfOk result (λ counts. list_any passes counts.items ≡ false) }
    ensures passes { IfErr result (λ refusal. IsLargeOrMemory
        (list_any passes (map (spec.whole_count scale) fractions.now)) refusal) }
{
    let mut counts = Vec::with_capacity(alloc, fractions.len())?;
    for fraction in fractions {
        let count = whole_count(*fraction, scale);
        if count > COUNT_LIMIT {
            return Err(BalanceError::CountsTooLarge);
        }
        counts.push(count as u32)?;
    }
    Ok(counts)
}

/// So many times a fraction.
fn whole_count(fraction: Option<Fraction>, scale: u128) -> u128
    requires positive { IfSome fraction (λ fraction. 0 < fraction.bottom) }
    requires within { scale ≤ count_limit }
    ensures { result ≡ spec.whole_count scale fraction }
{
    match fraction {
        Some(fraction) => u128::from(fraction.top) * (scale / u128::from(fraction.bottom)),
        None => 0,
    }
}
