// Takes planned graphs after fission.
// Gives: laws on them, and no code.
// The theorem to rely on: `split_graphs_are_by_channels`: the flat graph after fission is that of
// its nodes and channels, as laws on machines of rings ask.

ghost use Rattle.strc_stage_plan.specs.Channels.{SplitCopiesHaveOwnWindows};
ghost use Rattle.strc_stage_plan.specs.Channels.{SplitGraphsAreByChannels};

/// After fission what comes to each node comes by the channels, which have ends of their own.
pub fn split_graphs_are_by_channels()
    ensures { SplitGraphsAreByChannels }
{}

/// Each copy of a node that is split looks at as many items as the node did.
pub fn split_copies_have_own_windows()
    ensures { SplitCopiesHaveOwnWindows }
{}
