// What fission of planned graphs and of their rounds is worth.

ghost use Rattle.strc_stage_plan.specs.Answers.{FissionKeepsAnswers};
ghost use Rattle.strc_stage_plan.specs.Divisors.{GreatestDivisorDivides};
ghost use Rattle.strc_stage_plan.specs.Fusions.{FusionFollowsFission, FusedFissionKeepsAnswers};
ghost use Rattle.strc_stage_plan.specs.SplitLaws.{SplitGraphsAreSplit};
ghost use Rattle.strc_stage_plan.specs.Orders.{SplitRoundsAreOrders};
ghost use Rattle.strc_stage_plan.specs.Owners.{OwnersAreOrigins};
ghost use Rattle.strc_stage_plan.specs.Refusals.{TransformedOrRefused};
ghost use Rattle.strc_stage_plan.specs.Rounds.{GreedyRoundsAreOwn, GreedyRoundsDealAll};
ghost use Rattle.strc_stage_plan.specs.SplitRows.{SplitRow};
ghost use Rattle.strc_stage_plan.specs.RunRows.{RunRow};
ghost use Rattle.strc_stage_plan.specs.Runs.{FissionKeepsProgramRuns};
ghost use Rattle.strc_stage_plan.specs.Trees.{ChannelRunsAreTreeRuns};

/// A node is split among as many copies as can be: its firings are dealt evenly to so many, which
/// are no more than were asked for, and to no greater number of these.
pub fn greatest_divisor_divides()
    ensures { GreatestDivisorDivides }
{}

/// The graph after fission has the parts of each node of a planned graph, wired as it is.
pub fn split_graphs_are_split()
    ensures { SplitGraphsAreSplit }
{}

/// In the greedy round of a whole program each node that is split has all its firings in one unit.
pub fn greedy_rounds_are_own()
    ensures { GreedyRoundsAreOwn }
{}

/// So all firings of each node can be dealt there, and `fission` splits nodes by how often they
/// fire in a round.
pub fn greedy_rounds_deal_all()
    ensures { GreedyRoundsDealAll }
{}

/// The node and the part that a number has are those of the origins that fission gives.
pub fn owners_are_origins()
    ensures { OwnersAreOrigins }
{}

/// After start-up any number of rounds of a planned graph, and of the graph after fission, give the
/// same words, or the same fault in the same round.
pub fn fission_keeps_program_runs()
    ensures { FissionKeepsProgramRuns }
{}

/// The graph of a program's channels runs as the flat graph of its tree does.
pub fn channel_runs_are_tree_runs()
    ensures { ChannelRunsAreTreeRuns }
{}

/// So the rounds after fission come to the answer of the program's stream equations.
pub fn fission_keeps_answers()
    ensures { FissionKeepsAnswers }
{}

/// Fusion of the units after fission comes to the fission of fused units.
pub fn fusion_follows_fission()
    ensures { FusionFollowsFission }
{}

/// So fused rounds after fission come to the answer, too.
pub fn fused_fission_keeps_answers()
    ensures { FusedFissionKeepsAnswers }
{}

/// In the round after fission each firing finds its windows.
pub fn split_rounds_are_orders()
    ensures { SplitRoundsAreOrders }
{}

/// What fission and fusion make of a greedy schedule is within the limits, or passes one, and never
/// both.
pub fn transformed_or_refused()
    ensures { TransformedOrRefused }
{}

/// A filter that is split in two ways: what comes to each port before and after it.
pub fn split_row()
    ensures { SplitRow }
{}

/// Two rounds of such graphs before fission and after it: the same words, and the same fault.
pub fn run_row()
    ensures { RunRow }
{}
