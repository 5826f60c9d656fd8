// What a channel asks of the counts of start-up.

ghost use Rattle.std.specs.Prelude.{◌≡◌, ◌<◌, ◌≤◌, ◌^◌, ℕ};
ghost use Rattle.strc_balance.specs.Balance.{count_limit};
ghost use Rattle.strc_startup.specs.Startup as spec;
ghost use Rattle.strc_startup.specs.Waiting.{IsBounded, Pushes};

/// A channel's enqueued items and rates, the first firing of each end by itself.
#[derive(Clone, Copy)]
pub struct ChannelRates {
    /// The node that pushes.
    pub source: usize,
    /// How many items are on the channel before any firing.
    pub enqueued: u128,
    /// How many items the source's first firing pushes.
    pub first_push: u128,
    /// How many items each of its later firings pushes.
    pub push: u128,
    /// The node that pops.
    pub target: usize,
    /// How many items the target's prework looks at; 0 where it has none.
    pub prework_window: u128,
    /// How many items its first firing looks at.
    pub first_window: u128,
    /// How many items its first firing pops.
    pub first_pop: u128,
    /// How many items each of its later firings pops.
    pub pop: u128,
    /// How many items each of these looks at.
    pub window: u128,
}

impl ChannelRates {
    /// How many items must have come after so many firings of the target.
    pub(crate) fn need(&self, firings: u32) -> u128
        requires bounds { IsBounded self.now }
        requires firings { firings ≤ count_limit }
        ensures need { result ≡ spec.need self.now firings }
        ensures bound { result < 2 ^ 120 }
    {
        let popped = if firings == 0 {
            0
        } else {
            self.first_pop + self.pop * u128::from(firings - 1)
        };
        self.prework_window
            .max(popped + self.window.saturating_sub(self.pop))
    }

    /// After how many firings of the source so many items have come, at the least.
    pub(crate) fn least_firings(&self, needed: u128) -> u128
        requires pushes { Pushes self.now }
        requires bounds { IsBounded self.now }
        requires needed { needed < 2 ^ 120 }
        ensures enough { needed ≤ spec.supply self.now result }
        ensures least { (fewer : ℕ) → fewer < result → spec.supply self.now fewer < needed }
    {
        let missing = needed.saturating_sub(self.enqueued);
        if missing == 0 {
            0
        } else if missing <= self.first_push {
            1
        } else {
            2 + (missing - self.first_push - 1) / self.push
        }
    }
}
