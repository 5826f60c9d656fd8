// Takes: a plan's round in groups that no stage parts, and a weight for each group.
// Gives: bounds of stages of even work; and laws on cuts whose stages are whole groups, each the
// contract of a public function with an empty body. It has no code. The theorems to rely on:
// `weighed_bounds_are_a_cut`: whatever the weights, the bounds are a cut, and they are among those
// of the groups, as laws on batches ask of stages; `stages_have_even_work`: no stage has more than
// its even share of all nodes' work and the group with the most.
// Stands on strc_stage_steps and strc_stage_plan, whose plans and cuts these are.
#![tactic(auto)]

ghost use Rattle.strc_batch_cut.specs.Picks.{PickedBoundsAreACut};
ghost use Rattle.strc_batch_cut.specs.Plans.{EvenBoundsAreAmong, WeighedBoundsAreACut};
ghost use Rattle.strc_batch_cut.specs.Rows.{WeighedRow, WorkRow};
ghost use Rattle.strc_batch_cut.specs.Weighed.{WeighedGroupsArePicks, WeighedStagesAreEven};
ghost use Rattle.strc_batch_cut.specs.Work.{StagesHaveEvenWork};

/// Stages of whole groups are a cut where the groups are.
pub fn picked_bounds_are_a_cut()
    ensures { PickedBoundsAreACut }
{}

/// Whatever the weights, each stage has some group, in order, and all stages have all groups.
pub fn weighed_groups_are_picks()
    ensures { WeighedGroupsArePicks }
{}

/// No stage weighs more than its even share of all the weight and the heaviest group.
pub fn weighed_stages_are_even()
    ensures { WeighedStagesAreEven }
{}

/// The groups of a plan are a cut, and so are the bounds of stages by the groups' weights, each of
/// which is a group's.
pub fn weighed_bounds_are_a_cut()
    ensures { WeighedBoundsAreACut }
{}

/// Whatever is estimated of the nodes' work, no stage of a plan has more than its even share of all
/// work and the group with the most.
pub fn stages_have_even_work()
    ensures { StagesHaveEvenWork }
{}

/// Each bound of stages that share a plan's groups evenly is a group's.
pub fn even_bounds_are_among()
    ensures { EvenBoundsAreAmong }
{}

/// Groups of different weights in three stages.
pub fn weighed_row()
    ensures { WeighedRow }
{}

/// The weights of three groups, by the work of four nodes.
pub fn work_row()
    ensures { WorkRow }
{}
