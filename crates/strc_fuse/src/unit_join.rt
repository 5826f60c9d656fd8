// How two neighbouring units fire by turns.

ghost use Rattle.std.specs.Prelude.{◌≡◌, ◌*◌, IfSome, IfNone};
ghost use Rattle.std.specs.Int.{IsGcd};
ghost use Rattle.strc_fuse.specs.Steps.{AreShares, AreTooLong};
ghost use Rattle.strc_fuse.specs.Units.{round_unit};

use strc_sched_orders::unit::Unit;

/// How two units fire by turns: together so often, and in each turn the list of each so often.
#[derive(Clone, Copy)]
pub(crate) struct Shares {
    pub turns: u32,
    pub first: u32,
    pub second: u32,
}

/// How two units fire by turns, in a list of at most so many entries; nothing where it is longer.
pub(crate) fn joint(unit: &Unit, next: &Unit, threshold: u32) -> Option<Shares>
    ensures shares { IfSome result (AreShares threshold (round_unit unit.now)
        (round_unit next.now)) }
    ensures none { IfNone result (AreTooLong threshold (round_unit unit.now)
        (round_unit next.now)) }
{
    let shares = shares_of(unit.turns, next.turns);
    let entries = entries_of(shares.first, unit.nodes.len())
        + entries_of(shares.second, next.nodes.len());
    if entries > u128::from(threshold) {
        return None;
    }
    Some(shares)
}

/// How many entries a list has after so many repetitions: two numbers of 64 bits fit in 128 with
/// their product.
fn entries_of(times: u32, entries: usize) -> u128
    ensures { result ≡ times * entries }
{
    u128::from(times) * entries as u128
}

/// By their greatest common divisor: a unit that fires no time takes no part.
fn shares_of(first: u32, second: u32) -> Shares
    ensures divides { IsGcd first second result.turns }
    ensures first { first ≡ result.turns * result.first }
    ensures second { second ≡ result.turns * result.second }
    ensures none { result.turns ≡ 0 → (result.first ≡ 0) × (result.second ≡ 0) }
{
    let turns = greatest_divisor(first, second);
    if turns == 0 {
        return Shares {
            turns,
            first: 0,
            second: 0,
        };
    }
    Shares {
        turns,
        first: first / turns,
        second: second / turns,
    }
}

/// The greatest common divisor, by Euclid's algorithm.
fn greatest_divisor(first: u32, second: u32) -> u32
    ensures { IsGcd first second result }
{
    let mut greater = first;
    let mut lesser = second;
    while lesser != 0 {
        let rest = greater % lesser;
        greater = lesser;
        lesser = rest;
    }
    greater
}
