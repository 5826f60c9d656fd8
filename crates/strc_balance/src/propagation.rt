// Each node's count as a fraction of node 0's, from channel to channel.

ghost use Rattle.std.specs.Prelude.{◌≡◌, ℕ, ◌<◌, length, All, IfOk, OnOk, IfErr, IfSome, Some};
ghost use Rattle.std.specs.Prelude.{None};
ghost use Rattle.std.specs.Prelude.{replicate, false, ◌*◌, ◌^◌};
ghost use Rattle.strc_balance.specs.Divisors.{lowest_terms as lowest};
ghost use Rattle.std.specs.List.{list_any};
ghost use Rattle.strc_balance.specs.Balance as spec;
ghost use Rattle.strc_balance.specs.Balance.{HasRates, fraction_passes};
ghost use Rattle.strc_balance.specs.Frontiers.{IsBounded, ArePositive, Covers, CoversApart, Adds};
ghost use Rattle.strc_balance.specs.NumberSets.{AllNumbers};
ghost use Rattle.strc_balance.specs.Frontiers.{found_passes, IsTooLarge, IsLargeOrMemory};

use crate::equation::Equation;
use crate::error::BalanceError;
use crate::fraction::{Fraction, lowest_terms};
use crate::incidence::incidence_of;
use crate::number_set::NumberSet;
use std::alloc::{AllocError, Global};

/// Each node's fraction, as far as channels lead from node 0, whose fraction is 1.
///
/// The lowest channel of which one end is known gives the fraction of the other, again and again.
pub(crate) fn spread(
    alloc: Global,
    equations: &[Equation],
    size: usize,
) -> Result<Vec<Option<Fraction>>, BalanceError>
    requires rates { All (HasRates size) equations.now }
    requires bounds { All IsBounded equations.now }
    ensures found { IfOk result (λ fractions. fractions.items ≡ spec.spread size equations.now) }
    ensures within { IfOk result (λ fractions. list_any fraction_passes fractions.items ≡ false) }
    ensures passes { IfErr result (λ refusal.
        IsLargeOrMemory (list_any fraction_passes (spec.spread size equations.now)) refusal) }
{
    let incidence = incidence_of(alloc, equations, size)?;
    let mut fractions = unknown(alloc, size)?;
    if size == 0 {
        return Ok(fractions);
    }
    let mut frontier = NumberSet::with_capacity(alloc, equations.len())?;
    fractions[0] = Some(Fraction { top: 1, bottom: 1 });
    add_all(&mut frontier, incidence.at(0))?;
    for _turn in 0..size {
        match next_given(&mut frontier, &fractions, equations) {
            Ok(Some((node, fraction))) => {
                fractions[node] = Some(fraction);
                add_all(&mut frontier, incidence.at(node))?;
            }
            Ok(None) => return Ok(fractions),
            Err(refusal) => return Err(refusal),
        }
    }
    Ok(fractions)
}

/// No fractions yet.
fn unknown(alloc: Global, size: usize) -> Result<Vec<Option<Fraction>>, AllocError>
    ensures { IfOk result (λ fractions. fractions.items ≡ replicate size None) }
{
    Vec::from_elem(alloc, None, size)
}

/// Adds channels of which an end became known.
fn add_all(frontier: &mut NumberSet, channels: &[usize]) -> Result<(), AllocError>
    ensures { OnOk result (Adds channels.now frontier.old frontier.new) }
{
    for channel in channels {
        frontier.add(*channel)?;
    }
    Ok(())
}

/// The fraction that the lowest channel with one known end gives the node at its other end.
fn next_given(
    frontier: &mut NumberSet,
    fractions: &[Option<Fraction>],
    equations: &[Equation],
) -> Result<Option<(usize, Fraction)>, BalanceError>
    requires rates { All (HasRates (length fractions.now)) equations.now }
    requires bounds { All IsBounded equations.now }
    requires positive { ArePositive fractions.now }
    requires covers { Covers frontier.old fractions.now equations.now }
    requires numbers { AllNumbers (λ channel. channel < length equations.now) frontier.old }
    ensures found { IfOk result (λ found. found ≡ spec.first_given fractions.now equations.now) }
    ensures within { IfOk result (λ found. found_passes found ≡ false) }
    ensures passes { IfErr result (λ refusal. IsTooLarge
        (found_passes (spec.first_given fractions.now equations.now)) refusal) }
    ensures covers { IfOk result (λ found. IfSome found (λ found.
        CoversApart found.0 frontier.new fractions.now equations.now)) }
    ensures numbers { IfOk result (λ found. IfSome found (λ _.
        AllNumbers (λ channel. channel < length equations.now) frontier.new)) }
{
    while let Some(channel) = frontier.take_lowest() {
        match given(fractions, equations[channel]) {
            Ok(None) => {}
            Ok(Some(found)) => return Ok(Some(found)),
            Err(refusal) => return Err(refusal),
        }
    }
    Ok(None)
}

/// What an equation gives where one of its ends is known: the node at the other end, and its
/// fraction.
fn given(
    fractions: &[Option<Fraction>],
    equation: Equation,
) -> Result<Option<(usize, Fraction)>, BalanceError>
    requires rates { HasRates (length fractions.now) equation }
    requires bounds { IsBounded equation }
    requires positive { ArePositive fractions.now }
    ensures found { IfOk result (λ found. found ≡ spec.given fractions.now equation) }
    ensures within { IfOk result (λ found. found_passes found ≡ false) }
    ensures passes { IfErr result (λ refusal. IsTooLarge
        (found_passes (spec.given fractions.now equation)) refusal) }
{
    match fractions[equation.source] {
        Some(source) => match fractions[equation.target] {
            Some(_) => Ok(None),
            None => reached(equation.target, source, equation.push, equation.pop),
        },
        None => match fractions[equation.target] {
            Some(target) => reached(equation.source, target, equation.pop, equation.push),
            None => Ok(None),
        },
    }
}

/// The fraction of a node that moves so many items with each firing, by that of the node at the
/// other end.
fn reached(
    node: usize,
    known: Fraction,
    known_rate: u128,
    rate: u128,
) -> Result<Option<(usize, Fraction)>, BalanceError>
    requires top { 0 < known.top }
    requires known_rate { 0 < known_rate }
    requires known_bound { known_rate < 2 ^ 96 }
    requires bound { rate < 2 ^ 96 }
    ensures found { IfOk result (λ found. found
        ≡ Some (node, lowest (known.top * known_rate) (known.bottom * rate))) }
    ensures within { IfOk result (λ found. found_passes found ≡ false) }
    ensures passes { IfErr result (λ refusal. IsTooLarge
        (fraction_passes (Some (lowest (known.top * known_rate) (known.bottom * rate)))) refusal) }
{
    let top = u128::from(known.top) * known_rate;
    let bottom = u128::from(known.bottom) * rate;
    match lowest_terms(top, bottom) {
        Some(fraction) => Ok(Some((node, fraction))),
        None => Err(BalanceError::CountsTooLarge),
    }
}
