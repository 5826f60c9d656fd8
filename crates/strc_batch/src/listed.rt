// How many firings of a round the lists of a batch have, one after another.

ghost use Rattle.std.specs.Prelude.{◌≡◌, ◌*◌, ◌-◌, ◌^◌, ◌↔◌, IsTrue, length, min};
ghost use Rattle.strc_fuse.specs.Units.{round_units};
ghost use Rattle.strc_batch.specs.Listed as spec;

use strc_sched_orders::unit::Unit;

/// The most rounds of a batch.
pub const ROUNDS_LIMIT: u32 = 4_096;

/// The most firings of a round that the lists of a batch have.
pub const LISTED_LIMIT: u64 = 65_536;

/// The most firings of a batch that its lists have.
pub const FIRINGS_LIMIT: u64 = 1_000_000;

/// Whether a batch of so many rounds is short enough, by the units of each group.
pub(crate) fn is_short(groups: &[Vec<Unit>], rounds: u32) -> bool
    ensures { IsTrue result ↔ spec.IsShort (spec.listed_in (spec.units_in groups.now)) rounds }
{
    let listed = listed_in(groups);
    rounds <= ROUNDS_LIMIT && listed <= LISTED_LIMIT && u64::from(rounds) * listed <= FIRINGS_LIMIT
}

/// How many firings the groups list in a round; 2^64 - 1 where there are more.
fn listed_in(groups: &[Vec<Unit>]) -> u64
    ensures { result ≡ min (spec.listed_in (spec.units_in groups.now)) (2 ^ 64 - 1) }
{
    let mut listed: u64 = 0;
    for units in groups {
        listed = listed.saturating_add(listed_firings(units));
    }
    listed
}

/// How many firings a group lists in a round; 2^64 - 1 where there are more.
fn listed_firings(units: &[Unit]) -> u64
    ensures { result ≡ min (spec.listed_firings (round_units units.now)) (2 ^ 64 - 1) }
{
    if fires_at_once(units) {
        0
    } else {
        firing_total(units)
    }
}

/// Whether a group has one node's firings in a row alone.
fn fires_at_once(units: &[Unit]) -> bool
    ensures { result ≡ spec.fires_at_once (round_units units.now) }
{
    if units.len() == 1 {
        return units[0].nodes.len() <= 1;
    }
    units.is_empty()
}

/// How many firings units have; 2^64 - 1 where there are more.
fn firing_total(units: &[Unit]) -> u64
    ensures { result ≡ min (spec.firing_total (round_units units.now)) (2 ^ 64 - 1) }
{
    let mut firings: u64 = 0;
    for unit in units {
        firings = firings.saturating_add(unit_firings(unit));
    }
    firings
}

/// How many firings a unit has; 2^64 - 1 where there are more.
fn unit_firings(unit: &Unit) -> u64
    ensures { result ≡ min (unit.now.turns * length unit.now.nodes.items) (2 ^ 64 - 1) }
{
    u64::from(unit.turns).saturating_mul(unit.nodes.len() as u64)
}
