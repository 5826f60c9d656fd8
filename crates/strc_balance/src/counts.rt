// How often each node of a graph fires.

ghost use Rattle.std.specs.Prelude.{◌≡◌, ◌<◌, length, slice_index};
ghost use Rattle.strc_balance.specs.Balance.{IsWithinLimit};

use std::marker::Model;

/// How often each node fires, by its number: at most 1,000,000 times. Contracts see a list.
pub struct Counts {
    counts: Vec<u32>,
}

impl Drop for Counts {
    fn drop(self) {
        let Counts { counts: _ } = self;
    }
}

impl Model for Counts {
    ghost use Rattle.std.specs.Prelude.{ℕ, List};
    ghost use Rattle.strc_balance.specs.Balance.{IsWithinLimit};

    ghost Value = { List ℕ };

    ghost view = { λ c. c.counts.items };

    ghost invariant = { λ c. IsWithinLimit c.counts.items };
}

/// How often a node fires; past the last node never.
pub fn count_of(counts: &[u32], node: usize) -> u32
    ensures { result ≡ slice_index counts.now node }
{
    if node < counts.len() { counts[node] } else { 0 }
}

impl Counts {
    /// The counts of nodes in order of their numbers.
    pub fn new(counts: Vec<u32>) -> Counts
        requires { IsWithinLimit counts.items }
        ensures { result ≡ counts.items }
    {
        Counts { counts }
    }

    /// The counts, in order of the nodes' numbers.
    pub fn as_slice(&self) -> &[u32]
        ensures counts { result.now ≡ self.now }
        ensures within { IsWithinLimit self.now }
    {
        self.counts.as_slice()
    }

    /// How often a node fires.
    pub fn at(&self, node: usize) -> u32
        requires { node < length self.now }
        ensures { result ≡ slice_index self.now node }
    {
        self.counts[node]
    }
}
