// Sums of estimates.

ghost use Rattle.std.specs.Prelude.{◌≡◌, ◌+◌, ◌*◌};
ghost use Rattle.strc_rate_estimate.specs.Estimates as spec;

/// From here on an estimate is saturated.
pub const ESTIMATE_LIMIT: u32 = 1_000_000_000;

/// How many turns a loop is supposed to make whose turns aren't counted.
pub const LOOP_TURNS: u64 = 8;

/// The estimate of a call in a helper function, whose body isn't looked into.
pub const UNKNOWN_CALL: u32 = 16;

/// A sum, saturated.
pub(crate) fn sum(first: u32, second: u32) -> u32
    ensures { result ≡ spec.sum first second }
{
    first.saturating_add(second).min(ESTIMATE_LIMIT)
}

/// So many times, saturated.
pub(crate) fn product(times: u64, estimate: u32) -> u32
    ensures { result ≡ spec.product times estimate }
{
    times
        .saturating_mul(u64::from(estimate))
        .min(u64::from(ESTIMATE_LIMIT)) as u32
}
