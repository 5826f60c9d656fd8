// What the counts rely on, as a law about all equations, and the counts of small graphs.

ghost use Rattle.strc_balance.specs.Examples.{ChangedRates, PreworkLeftOut, ManyItems};
ghost use Rattle.strc_balance.specs.Examples.{TooManyItems, DealtByWeights, DoubledSide};
ghost use Rattle.strc_balance.specs.Promises.{SpreadIsWhole};

/// Fractions are given until no channel with one known end is left.
pub fn spread_is_whole()
    ensures { SpreadIsWhole }
{}

/// Nodes in a row whose rates differ fire so often that no items are left.
pub fn changed_rates()
    ensures { ChangedRates }
{}

/// A filter's `prework` doesn't count.
pub fn prework_left_out()
    ensures { PreworkLeftOut }
{}

/// A node may fire 1,000,000 times.
pub fn many_items()
    ensures { ManyItems }
{}

/// A node would have to fire 1,000,001 times.
pub fn too_many_items()
    ensures { TooManyItems }
{}

/// A splitter and a joiner move items by their weights.
pub fn dealt_by_weights()
    ensures { DealtByWeights }
{}

/// Two sides that give different numbers of items don't balance at a joiner that takes as many of
/// each.
pub fn doubled_side()
    ensures { DoubledSide }
{}
