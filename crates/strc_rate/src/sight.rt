// What a peek's text tells of the window.

ghost use Rattle.std.specs.Prelude.{◌≡◌, ◌++◌, not, ◌&&◌, ◌||◌, pos, ◌+ℤ◌, IfOk, OnOk, map};
ghost use Rattle.std.specs.Int.RustNames.{int_lt};
ghost use Rattle.strc_rate.specs.Counts.{Counts};
ghost use Rattle.strc_rate.specs.Peeks as spec;

use crate::counts::{Counts, saturating_product, saturating_sum};
use std::alloc::Global;
use strc_lex_names::memory::NoMemory;
use strc_rate_intervals::interval::Interval;

/// Between how many items a firing has popped when it comes to a place of its text, saturated as
/// counts are.
#[derive(Clone, Copy)]
pub(crate) struct PopInterval {
    pub low: u32,
    pub high: u32,
}

/// A peek of a text, before its window is known.
#[derive(Clone, Copy)]
pub(crate) enum PeekSite {
    /// The interval of its index, where that is known, and how many items are popped before it.
    Reached(Option<Interval>, PopInterval),
    /// No run comes to it.
    NoRun,
}

/// What is known of a peek.
#[derive(Clone, Copy, PartialEq)]
pub enum PeekBounds {
    /// It stays within its window.
    Closed,
    /// It can't be within its window.
    Outside,
    /// Neither, so that it is tested when it runs.
    Open,
    /// No run comes to it.
    Unreached,
}

/// The items popped where a firing begins.
pub(crate) fn none_popped() -> PopInterval
    ensures { result ≡ spec.none_popped }
{
    PopInterval { low: 0, high: 0 }
}

/// After a part that was counted.
pub(crate) fn advance(popped: PopInterval, counts: Option<Counts>) -> PopInterval
    ensures { result ≡ spec.advance popped counts }
{
    let pops = pops_of(counts);
    PopInterval {
        low: saturating_sum(popped.low, pops),
        high: saturating_sum(popped.high, pops),
    }
}

/// In a turn of a loop, after the pops of the turns before it.
fn in_turns(popped: PopInterval, turns: u64, counts: Option<Counts>) -> PopInterval
    ensures { result ≡ spec.in_turns popped turns counts }
{
    let before = saturating_product(turns.saturating_sub(1), pops_of(counts));
    PopInterval {
        low: popped.low,
        high: saturating_sum(popped.high, before),
    }
}

fn pops_of(counts: Option<Counts>) -> u32
    ensures { result ≡ spec.pops_of counts }
{
    match counts {
        Some(counts) => counts.pops,
        None => 0,
    }
}

/// What the text of a peek tells whose index has this interval.
fn sight_at(window: u32, popped: PopInterval, index: Option<Interval>) -> PeekBounds
    ensures { result ≡ spec.sight_at window popped index }
{
    let Some(index) = index else {
        return PeekBounds::Open;
    };
    if is_within(window, popped, index) {
        return PeekBounds::Closed;
    }
    if is_outside(window, popped, index) {
        return PeekBounds::Outside;
    }
    PeekBounds::Open
}

/// Whether each index of an interval is within the window, however many items are popped.
fn is_within(window: u32, popped: PopInterval, index: Interval) -> bool
    ensures { result ≡ (not (int_lt index.low (pos 0))
        && int_lt (index.high +ℤ pos popped.high) (pos window)) }
{
    !(index.low < 0) && i64::from(index.high) + i64::from(popped.high) < i64::from(window)
}

/// Whether no index of an interval is within the window, however many items are popped.
fn is_outside(window: u32, popped: PopInterval, index: Interval) -> bool
    ensures { result ≡ (int_lt index.high (pos 0)
        || not (int_lt (index.low +ℤ pos popped.low) (pos window))) }
{
    index.high < 0 || !(i64::from(index.low) + i64::from(popped.low) < i64::from(window))
}

/// What is known of a peek before a window.
fn sight_of(window: u32, site: PeekSite) -> PeekBounds
    ensures { result ≡ spec.sight_of window site }
{
    match site {
        PeekSite::Reached(index, popped) => sight_at(window, popped, index),
        PeekSite::NoRun => PeekBounds::Unreached,
    }
}

/// What is known of each peek before a window.
pub(crate) fn sights_of(
    alloc: Global,
    window: u32,
    sites: &[PeekSite],
) -> Result<Vec<PeekBounds>, NoMemory>
    ensures { IfOk result (λ sights. sights.items ≡ map (spec.sight_of window) sites.now) }
{
    let mut sights = Vec::with_capacity(alloc, sites.len())?;
    for site in sites {
        sights.push(sight_of(window, *site))?;
    }
    Ok(sights)
}

/// A peek of a loop's body, after the pops of the turns before.
fn site_in_turns(site: PeekSite, turns: u64, counts: Option<Counts>) -> PeekSite
    ensures { result ≡ spec.site_in_turns turns counts site }
{
    match site {
        PeekSite::Reached(index, popped) => {
            PeekSite::Reached(index, in_turns(popped, turns, counts))
        }
        PeekSite::NoRun => PeekSite::NoRun,
    }
}

/// Adds the peeks of a loop's body, after the pops of the turns before.
pub(crate) fn add_in_turns(
    sites: &mut Vec<PeekSite>,
    body: &[PeekSite],
    turns: u64,
    counts: Option<Counts>,
) -> Result<(), NoMemory>
    ensures { OnOk result (sites.new.items
        ≡ sites.old.items ++ map (spec.site_in_turns turns counts) body.now) }
{
    for site in body {
        sites.push(site_in_turns(*site, turns, counts))?;
    }
    Ok(())
}

/// Whether a peek stays within its window. One that no run comes to isn't looked at, so it isn't
/// said to be closed.
pub fn is_closed(sight: PeekBounds) -> bool
    ensures { result ≡ spec.is_closed sight }
{
    match sight {
        PeekBounds::Closed => true,
        PeekBounds::Unreached | PeekBounds::Outside | PeekBounds::Open => false,
    }
}
