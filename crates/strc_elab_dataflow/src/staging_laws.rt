// Takes: a graph whose order of a round is cut into stages, and a solution of its equations.
// Gives: what stages keep and send on, and laws on them, each the contract of a public function
// with an empty body; `specs/StageLaws.antt` states them, `specs/StageRows.antt` has a worked row.
// A caller relies on `chain_gives_answer`: whatever the workers of a chain have given and taken so
// far, what the collector makes of it is the answer that the equations give.

ghost use Rattle.strc_elab_dataflow.specs.StageLaws.{BlocksAreItems, BlocksHaveRates};
ghost use Rattle.strc_elab_dataflow.specs.StageLaws.{ChainGivesAnswer};
ghost use Rattle.strc_elab_dataflow.specs.StageLaws.{ChainGivesStreamAnswer, RangesAreStages};
ghost use Rattle.strc_elab_dataflow.specs.StageLaws.{GroupsAreStages, GroupsGoForward};
ghost use Rattle.strc_elab_dataflow.specs.StageLaws.{RewiringKeeps, StageGoes, StageIsLocal};
ghost use Rattle.strc_elab_dataflow.specs.StageLaws.{StagesGiveAnswer, StagesRunAlone};
ghost use Rattle.strc_elab_dataflow.specs.StageLaws.{StartupGivesStages, StepFits, StepKeeps};
ghost use Rattle.strc_elab_dataflow.specs.StageLaws.{StreamIsStaging};
ghost use Rattle.strc_elab_dataflow.specs.StageRows.{ThreeStagesRow};

/// The nodes of the stages before one, run alone for some rounds, have the runs that the equations
/// of the whole graph give, whatever later stages do or don't.
pub fn stages_run_alone<Code, State, Cause, Word>()
    ensures { StagesRunAlone Code State Cause Word }
{}

/// The segment of a stage, from any state in which the earlier stages have done theirs and
/// whatever later stages did, gives the runs of the equations, or stops at their first fault.
pub fn stage_goes<Code, State, Cause, Word>()
    ensures { StageGoes Code State Cause Word }
{}

/// After start-up on one thread each stage begins with its part of the state, or its fault is the
/// answer.
pub fn startup_gives_stages<Code, State, Cause, Word>()
    ensures { StartupGivesStages Code State Cause Word }
{}

/// A stage's step, over its own nodes, queues and blocks, takes the equations' state and items of
/// a round to the state and items of the next, or stops at the first fault.
pub fn step_keeps<Code, State, Cause, Word>()
    ensures { StepKeeps Code State Cause Word }
{}

/// Each block of a parcel is the items that its origin gives in the round, as many as the counts
/// say.
pub fn blocks_are_items<Code, State, Cause, Word>()
    ensures { BlocksAreItems Code State Cause Word }
{}

/// Where rates repeat, a block has as many items as a round of its origin gives.
pub fn blocks_have_rates<Code, State, Cause, Word>()
    ensures { BlocksHaveRates Code State Cause Word }
{}

/// After each front of a stage's segment, the lengths of its queues and of the blocks that it fills
/// are what the counts say.
pub fn step_fits<Code, State, Cause, Word>()
    ensures { StepFits Code State Cause Word }
{}

/// The run stage by stage is the run of the whole graph, and so the answer of the equations.
pub fn stages_give_answer<Code, State, Cause, Word>()
    ensures { StagesGiveAnswer Code State Cause Word }
{}

/// Whatever workers in a chain have given and taken so far, the parcels between them are those of
/// the equations up to the first stop, and what the collector makes of them is the answer.
pub fn chain_gives_answer<Code, State, Cause, Word>()
    ensures { ChainGivesAnswer Code State Cause Word }
{}

/// A machine over all nodes does over the queues of a stage's nodes what the stage does, whatever
/// is at other nodes and at ports without items.
pub fn stage_is_local<Code, State, Cause, Word>()
    ensures { StageIsLocal Code State Cause Word }
{}

/// A schedule of a graph and a solution of its equations are so over other sources at ports without
/// items, and so is the run of start-up.
pub fn rewiring_keeps<Code, State, Cause, Word>()
    ensures { RewiringKeeps Code State Cause Word }
{}

/// A stream cut into stages meets what these laws ask, and the runs of which they speak are those
/// of the stream equations.
pub fn stream_is_staging<Code, State, Cause, Word>()
    ensures { StreamIsStaging Code State Cause Word }
{}

/// What the collector of a chain of workers makes is the answer of the stream equations.
pub fn chain_gives_stream_answer<Code, State, Cause, Word>()
    ensures { ChainGivesStreamAnswer Code State Cause Word }
{}

/// Ranges of node numbers whose channels go forward are stages.
pub fn ranges_are_stages<Code>()
    ensures { RangesAreStages Code }
{}

/// The groups of a stream, an outermost feedback loop or another node each, have all its nodes, and
/// no channel goes from a group to one before it.
pub fn groups_go_forward<Code>()
    ensures { GroupsGoForward Code }
{}

/// A cut between groups gives stages.
pub fn groups_are_stages<Code>()
    ensures { GroupsAreStages Code }
{}

/// A stream in three stages, with a fault in round 1.
pub fn three_stages()
    ensures { ThreeStagesRow }
{}
