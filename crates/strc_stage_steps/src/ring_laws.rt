// Laws on rings of stages: whatever the order of their events, they come to one outcome, and their
// parcels have room.

ghost use Rattle.strc_stage_steps.specs.Laws.{OutcomesTellEndings, ParcelsFit};
ghost use Rattle.strc_stage_steps.specs.Laws.{RoundsHaveRoom, RoundsRunAlike, StageStepsAlike};
ghost use Rattle.strc_stage_steps.specs.Laws.{RingsAreInRounds, StagesRunAlike};
ghost use Rattle.strc_stage_steps.specs.Rows.{TwoStagesRow};

/// A ring of stages that is over, by whatever events, has come to the outcome of the rounds of the
/// graph that it runs, from the state that it began with.
pub fn stages_run_alike()
    ensures { StagesRunAlike }
{}

/// A step of a stage over rings goes as the step of the generic stage, and holds what that leaves.
pub fn stage_steps_alike()
    ensures { StageStepsAlike }
{}

/// Each parcel that waits for a stage is stopped, or has the blocks that are to come there.
pub fn parcels_fit()
    ensures { ParcelsFit }
{}

/// In any state of a ring of stages, parcels carry what the rounds of the equations give, up to the
/// first stop, and each stage that has not stopped holds what it is to hold.
pub fn rings_are_in_rounds()
    ensures { RingsAreInRounds }
{}

/// Rings that have room in one round have room in each, where rates repeat round by round.
pub fn rounds_have_room()
    ensures { RoundsHaveRoom }
{}

/// One machine that runs all rounds comes to the same as over queues.
pub fn rounds_run_alike()
    ensures { RoundsRunAlike }
{}

/// What tells the outcome of a run tells how it ends.
pub fn outcomes_tell_endings()
    ensures { OutcomesTellEndings }
{}

/// A source and a writer in a stage each, with a fault in the first stage in round 1.
pub fn two_stages()
    ensures { TwoStagesRow }
{}
