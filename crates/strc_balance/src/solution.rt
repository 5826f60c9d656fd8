// The least solution of balance equations.

ghost use Rattle.std.specs.Prelude.{◌≡◌, ◌<◌, length, All, IfOk};
ghost use Rattle.strc_balance.specs.Balance as spec;
ghost use Rattle.strc_balance.specs.Balance.{HasRates, IsWithinLimit};
ghost use Rattle.strc_balance.specs.Frontiers.{IsBounded};
ghost use Rattle.strc_balance.specs.Verdicts.{IsVerdict, judged};

use crate::counts::Counts;
use crate::equation::Equation;
use crate::error::BalanceError;
use crate::multiples::{scale_of, whole_counts};
use crate::propagation::spread;
use std::alloc::Global;

/// The least counts of so many nodes that balance their equations.
pub(crate) fn solve(
    alloc: Global,
    equations: &[Equation],
    size: usize,
) -> Result<Counts, BalanceError>
    requires rates { All (HasRates size) equations.now }
    requires bounds { All IsBounded equations.now }
    ensures verdict { IsVerdict (judged size equations.now) result }
    ensures within { IfOk result (λ counts. IsWithinLimit counts) }
{
    let fractions = match spread(alloc, equations, size) {
        Ok(fractions) => fractions,
        Err(refusal) => return Err(refusal),
    };
    let Some(scale) = scale_of(&fractions) else {
        return Err(BalanceError::CountsTooLarge);
    };
    let counts = match whole_counts(alloc, &fractions, scale) {
        Ok(counts) => counts,
        Err(refusal) => return Err(refusal),
    };
    match first_unbalanced(equations, &counts) {
        Some(channel) => Err(BalanceError::Inconsistent { channel }),
        None => Ok(Counts::new(counts)),
    }
}

/// The lowest channel that counts don't balance.
fn first_unbalanced(equations: &[Equation], counts: &[u32]) -> Option<usize>
    requires rates { All (HasRates (length counts.now)) equations.now }
    requires bounds { All IsBounded equations.now }
    ensures { result ≡ spec.first_unbalanced 0 counts.now equations.now }
{
    for channel in 0..equations.len() {
        if !is_balanced(equations[channel], counts) {
            return Some(channel);
        }
    }
    None
}

/// Whether as many items are pushed as popped.
fn is_balanced(equation: Equation, counts: &[u32]) -> bool
    requires rates { HasRates (length counts.now) equation }
    requires bounds { IsBounded equation }
    ensures { result ≡ spec.is_balanced counts.now equation }
{
    let pushed = equation.push * u128::from(counts[equation.source]);
    let popped = equation.pop * u128::from(counts[equation.target]);
    pushed == popped
}
