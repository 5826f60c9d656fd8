// The start-up counts of small graphs.

ghost use Rattle.strc_startup.specs.Examples.{MovingSum, Delay, FarPeek};

/// A filter that looks at three items and pops one has two of them before the first round.
pub fn moving_sum()
    ensures { MovingSum }
{}

/// A prework fires once before the first round.
pub fn delay()
    ensures { Delay }
{}

/// A filter that looks at 65,536 items has 65,535 of them before the first round.
pub fn far_peek()
    ensures { FarPeek }
{}
