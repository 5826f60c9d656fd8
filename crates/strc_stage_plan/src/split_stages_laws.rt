// Takes: planned graphs after fission, and the state that start-up left, dealt out to the parts.
// Gives: laws on how they go on from there by stages, and no code.
// The theorem to rely on: `split_graphs_resume`: the graph after fission, restarted at that state,
// can be run by stages of its round, fused or not.

ghost use Rattle.strc_stage_plan.specs.Codes.{SplitNodesAreRated};
ghost use Rattle.strc_stage_plan.specs.Fused.{SplitGraphsResume, SplitRoundIsRestartedOrder};
ghost use Rattle.strc_stage_plan.specs.Fused.{SplitRoundsAreSupplied, SplitRoundsBalance};
ghost use Rattle.strc_stage_plan.specs.SplitStagesRounds.{SplitRoundsRepeat};

/// Each node of a planned graph after fission pushes at its rates, and takes no more than it looks
/// at.
pub fn split_nodes_are_rated()
    ensures { SplitNodesAreRated }
{}

/// From the state that start-up left, dealt out to the parts, each firing of the graph after
/// fission has the rates of the one a round before.
pub fn split_rounds_repeat()
    ensures { SplitRoundsRepeat }
{}

/// On each channel of a planned graph after fission a round, fused or not, takes what it gives.
pub fn split_rounds_balance()
    ensures { SplitRoundsBalance }
{}

/// Its first round's order finds its windows in the queues of the state that start-up left.
pub fn split_round_is_restarted_order()
    ensures { SplitRoundIsRestartedOrder }
{}

/// What waits from outside suffices for all its rounds.
pub fn split_rounds_are_supplied()
    ensures { SplitRoundsAreSupplied }
{}

/// So a planned graph after fission, restarted at that state, can be run by stages.
pub fn split_graphs_resume()
    ensures { SplitGraphsResume }
{}
