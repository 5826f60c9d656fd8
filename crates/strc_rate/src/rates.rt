// The rates of a filter: what is declared against what is counted.

ghost use Rattle.std.specs.Prelude.{◌≡◌, ◌&&◌, IfOk, map};
ghost use Rattle.std.specs.Option.{option_map};
ghost use Rattle.strc_work_meaning.specs.Filters as filters;
ghost use Rattle.strc_work_meaning.specs.Filters.{filter_of};
ghost use Rattle.strc_rate.specs.Rates as spec;
ghost use Rattle.strc_rate.specs.Kept.{KeepsRates};
ghost use Rattle.strc_rate.specs.Peeks as peeks;
ghost use Rattle.strc_rate.specs.Safe.{HasEntries, HasSafePeeks};
ghost use Rattle.strc_rate.specs.Verdicts.{IsVerdict, body_view, rates_view};

use crate::peeks::body_peeks;
use crate::sight::{PeekBounds, is_closed};
use std::alloc::{AllocError, AllocFailed, Global};
use strc_lex_names::memory::NoMemory;
use strc_parse_tree::tree::ItemType;
use strc_work_code::code::{Code, DeclaredRates, RATE_LIMIT};
use strc_work_meaning::body::Body;
use thiserror::Error;

/// What a firing of a body pushes and pops, and what is known of its peeks.
#[derive(Drop)]
pub struct BodyRates {
    /// How many items each firing pushes.
    pub push: u32,
    /// How many items each firing pops.
    pub pop: u32,
    /// How many items a firing may look at.
    pub window: u32,
    /// Of each peek of the text, in its order, whether it is closed: no firing looks outside its
    /// window by it. One that no run comes to isn't looked at, and isn't closed.
    pub closed: Vec<bool>,
}

/// The rates of a filter.
#[derive(Drop)]
pub struct Rates {
    /// Those of the prework, where there is one.
    pub prework: Option<BodyRates>,
    pub work: BodyRates,
}

/// Why a filter's rates aren't accepted.
#[derive(Clone, Copy, Debug, Error)]
pub enum RateError {
    /// A rate is below 0 or above 65,536, or a work has rate 0 on a side with items.
    #[error("a rate isn't from 0 to 65536, or it is 0 on a side of the work that has items")]
    RateLimit,
    /// What a body pushes or pops can't be counted from its text.
    #[error("what a firing pushes or pops can't be counted from the text")]
    RateUnknown,
    /// A declared rate isn't the counted one, which is saturated at 65,537.
    #[error("a rate of {declared} is declared, and the text has {counted}")]
    RateMismatch { declared: u32, counted: u32 },
    /// A peek can't be within its window.
    #[error("a peek lies past the items that a firing may look at: declare a larger peek rate")]
    PeekOutside,
    /// Memory was refused.
    #[error("out of memory")]
    NoMemory,
}

impl From<NoMemory> for RateError {
    ghost use Rattle.std.specs.Prelude.{◌≡◌};
    ghost use Rattle.strc_rate.specs.declared.rates.RateError.TheVariants as broken;

    ghost from_gives = { λ _ e. e ≡ broken.NoMemory };

    fn from(_error: NoMemory) -> RateError {
        RateError::NoMemory
    }
}

impl From<AllocError> for RateError {
    ghost use Rattle.std.specs.Prelude.{◌≡◌};
    ghost use Rattle.strc_rate.specs.declared.rates.RateError.TheVariants as broken;

    ghost from_gives = { λ _ e. e ≡ broken.NoMemory };

    fn from(_error: AllocError) -> RateError {
        RateError::NoMemory
    }
}

impl<T: Drop> From<AllocFailed<T>> for RateError {
    ghost use Rattle.std.specs.Prelude.{◌≡◌};
    ghost use Rattle.strc_rate.specs.declared.rates.RateError.TheVariants as broken;

    ghost from_gives = { λ _ e. e ≡ broken.NoMemory };

    fn from(_error: AllocFailed<T>) -> RateError {
        RateError::NoMemory
    }
}

/// The rates of a filter, or the first reason why they aren't accepted.
///
/// The prework comes before the work. Of each body these are tested in order: that each rate is
/// from 0 to 65,536, and that a work has no rate 0 on a side with items (`RateLimit`); that the
/// text's pushes and pops can be counted (`RateUnknown`); that the counted pushes, and then the
/// counted pops, are the declared ones (`RateMismatch`); and that no peek must look past its window
/// (`PeekOutside`). `NoMemory` can come in place of any answer.
pub fn check(alloc: Global, code: &Code) -> Result<Rates, RateError>
    ensures verdict { IsVerdict rates_view (spec.checked (filter_of code.now)) result }
    ensures kept { IfOk result (λ rates. KeepsRates (filter_of code.now)) }
    ensures entries { IfOk result (λ rates. HasEntries (filter_of code.now) (rates_view rates)) }
    ensures safe { IfOk result (λ rates. HasSafePeeks (filter_of code.now) (rates_view rates)) }
{
    // What is promised of a firing rests on the names of the code's tree, which are known.
    let _known = code.tree();
    judge(alloc, code)
}

/// The rates of the prework, where there is one, and then of the work.
fn judge(alloc: Global, code: &Code) -> Result<Rates, RateError>
    ensures verdict { IsVerdict rates_view (spec.checked (filter_of code.now)) result }
{
    let prework = check_prework(alloc, code)?;
    let work = check_body(alloc, code, Body::Work, work_lacks(code))?;
    Ok(Rates { prework, work })
}

/// The rates of the prework, where there is one: it lacks no rate.
fn check_prework(alloc: Global, code: &Code) -> Result<Option<BodyRates>, RateError>
    ensures verdict { let members = (filter_of code.now).members in
        IsVerdict (option_map body_view)
        (spec.prework_checked (filters.prework_rates members)
        (filters.prework_block members)) result }
{
    if !code.has_prework() {
        return Ok(None);
    }
    let prework = check_body(alloc, code, Body::Prework, false)?;
    Ok(Some(prework))
}

/// Whether a rate of the work is 0 on a side with items.
fn work_lacks(code: &Code) -> bool
    ensures { result ≡ spec.work_lacks (filter_of code.now) }
{
    let tree = code.tree();
    let rates = code.rates(Body::Work);
    lacks_rate(tree.input, rates.pop) || lacks_rate(tree.output, rates.push)
}

fn lacks_rate(side: ItemType, rate: i32) -> bool
    ensures { result ≡ spec.lacks_rate side rate }
{
    match side {
        ItemType::Int => item_count(rate) == 0,
        ItemType::Void => false,
    }
}

/// The rates of a body: their limits, then the counts, then the peeks.
fn check_body(alloc: Global, code: &Code, body: Body, lacks: bool) -> Result<BodyRates, RateError>
    ensures verdict { let members = (filter_of code.now).members in
        IsVerdict body_view
        (spec.body_checked lacks (filters.body_rates body members)
        (filters.body_block body members)) result }
{
    let rates = code.rates(body);
    if !are_within_limit(rates) || lacks {
        return Err(RateError::RateLimit);
    }
    let found = body_peeks(alloc, code.block(body), code.window(body))?;
    match found.counts {
        Some(counts) => {
            same_rate(item_count(rates.push), counts.pushes)?;
            same_rate(item_count(rates.pop), counts.pops)?;
            with_closed_peeks(alloc, code, body, &found.sights)
        }
        None => Err(RateError::RateUnknown),
    }
}

/// Whether no rate is below 0 or above the limit.
fn are_within_limit(rates: DeclaredRates) -> bool
    ensures { result ≡ spec.within_limit rates.push &&
        (spec.within_limit rates.pop && spec.within_limit rates.peek) }
{
    is_within_limit(rates.push) && (is_within_limit(rates.pop) && is_within_limit(rates.peek))
}

fn is_within_limit(rate: i32) -> bool
    ensures { result ≡ spec.within_limit rate }
{
    !(rate < 0) && !(RATE_LIMIT < rate)
}

/// A rate as a number of items: none where it is below 0.
fn item_count(rate: i32) -> u32
    ensures { result ≡ filters.item_count rate }
{
    if rate < 0 { 0 } else { rate as u32 }
}

/// A declared rate is the counted one.
fn same_rate(declared: u32, counted: u32) -> Result<(), RateError>
    ensures { result ≡ spec.same_rate declared counted }
{
    if declared == counted {
        Ok(())
    } else {
        Err(RateError::RateMismatch { declared, counted })
    }
}

/// The rates of a body whose counts are the declared ones, if no peek is outside of its window.
fn with_closed_peeks(
    alloc: Global,
    code: &Code,
    body: Body,
    sights: &[PeekBounds],
) -> Result<BodyRates, RateError>
    ensures verdict { IsVerdict body_view
        (spec.with_closed_peeks (filters.body_rates body (filter_of code.now).members) sights.now)
        result }
{
    if some_outside(sights) {
        return Err(RateError::PeekOutside);
    }
    let rates = code.rates(body);
    Ok(BodyRates {
        push: item_count(rates.push),
        pop: item_count(rates.pop),
        window: code.window(body),
        closed: closed_of(alloc, sights)?,
    })
}

fn some_outside(sights: &[PeekBounds]) -> bool
    ensures { result ≡ spec.some_outside sights.now }
{
    for sight in sights {
        if is_outside(*sight) {
            return true;
        }
    }
    false
}

fn is_outside(sight: PeekBounds) -> bool
    ensures { result ≡ spec.is_outside sight }
{
    match sight {
        PeekBounds::Outside => true,
        _ => false,
    }
}

/// Of each sight, in order, whether it is closed.
fn closed_of(alloc: Global, sights: &[PeekBounds]) -> Result<Vec<bool>, AllocError>
    ensures { IfOk result (λ closed. closed.items ≡ map peeks.is_closed sights.now) }
{
    let mut closed = Vec::with_capacity(alloc, sights.len())?;
    for sight in sights {
        closed.push(is_closed(*sight))?;
    }
    Ok(closed)
}
