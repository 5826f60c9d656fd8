// Takes: a graph, the units of its round, and a number of workers.
// Gives: bounds of stages between the groups of its nodes, outermost feedback loops and units of
// the round, and laws on such bounds, each the contract of a public function with an empty body.
// The theorem to rely on: `stage_bounds`: its bounds are those of the definition; strc_stage_steps
// shows that a round that is cut there is staged.

ghost use Rattle.strc_stage_plan.specs.CutLaws.{BoundsAreListed, BoundsAreOfGroups};
ghost use Rattle.strc_stage_plan.specs.CutLaws.{ChannelsGoForward};
ghost use Rattle.strc_stage_plan.specs.CutLaws.{GroupsBeginBetween, SegmentsAreUnits};
ghost use Rattle.strc_stage_plan.specs.Rows.{BoundsRoundALoop, BoundsRoundAUnit, CutRoundALoop};

/// A number that is between the groups of a stream's nodes is where one of them begins, or where
/// the last one ends.
pub fn bounds_are_of_groups()
    ensures { BoundsAreOfGroups }
{}

/// No channel of a program's graph goes back across one.
pub fn channels_go_forward()
    ensures { ChannelsGoForward }
{}

/// Just where a node's outermost loop doesn't begin before it, its number is between groups.
pub fn groups_begin_between()
    ensures { GroupsBeginBetween }
{}

/// The list of bounds has one for each stage, in order, and the last one's end.
pub fn bounds_are_listed()
    ensures { BoundsAreListed }
{}

/// The firings of a stage are those of its units.
pub fn segments_are_units()
    ensures { SegmentsAreUnits }
{}

/// The bounds of two and nine workers where three nodes are fused.
pub fn bounds_round_a_unit()
    ensures { BoundsRoundAUnit }
{}

/// Three stages round a feedback loop, which no bound parts.
pub fn cut_round_a_loop()
    ensures { CutRoundALoop }
{}

/// The bounds of two, three and nine workers there.
pub fn bounds_round_a_loop()
    ensures { BoundsRoundALoop }
{}
