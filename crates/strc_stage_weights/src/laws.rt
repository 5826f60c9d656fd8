// Laws on stages of whole groups, and worked rows.

ghost use Rattle.strc_stage_weights.specs.Laws.{PickedGroupsAreACut, WeighedBoundsAreOfStages};
ghost use Rattle.strc_stage_weights.specs.Rows.{FiringRow, WeighedRow};

/// Bounds where rising groups of a plan begin, from the first one on, are a cut.
pub fn picked_groups_are_a_cut()
    ensures { PickedGroupsAreACut }
{}

/// The bounds by the nodes' work are a cut of whole groups, into as many stages as workers share
/// evenly.
pub fn weighed_bounds_are_of_stages()
    ensures { WeighedBoundsAreOfStages }
{}

/// The work of a firing of nodes that move items, and of a filter and its copies.
pub fn firing_row()
    ensures { FiringRow }
{}

/// Four equal filters between a source and a printer, by four workers.
pub fn weighed_row()
    ensures { WeighedRow }
{}
