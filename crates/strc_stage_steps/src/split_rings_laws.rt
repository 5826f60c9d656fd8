// Takes: planned graphs after fission, the state that start-up left, dealt out to the parts, and
// stages of their fused rounds.
// Gives: laws on rings of such stages, and on plans that are run by them, and no code.
// The theorem to rely on: `plan_rings_answer`: a ring of a plan's stages that is over, by whatever
// events, has come to the answer of the program's stream equations, but for the names of parts;
// `plan_rounds_answer` says so of one machine that runs the rounds.

ghost use Rattle.strc_stage_steps.specs.SplitRingsLaws.{SplitGraphsAreRunning, SplitRingsAnswer};
ghost use Rattle.strc_stage_steps.specs.Plans.{PlanBoundsAreACut, PlanFaultsAnswer};
ghost use Rattle.strc_stage_steps.specs.Plans.{PlanParcelsFit, PlanParcelsFitStages};
ghost use Rattle.strc_stage_steps.specs.Plans.{PlanRingsAnswer, PlanRingsAreInRounds};
ghost use Rattle.strc_stage_steps.specs.Plans.{PlanRingsHaveRoom, PlanRoundsAnswer, PlansKeepTapes};

/// The fused rounds after fission go on from the state that start-up left as stages ask for.
pub fn split_graphs_are_running()
    ensures { SplitGraphsAreRunning }
{}

/// So a ring of stages over them that is over has come to an answer of the stream equations.
pub fn split_rings_answer()
    ensures { SplitRingsAnswer }
{}

/// Groups of a plan that workers share evenly are a cut of its round.
pub fn plan_bounds_are_a_cut()
    ensures { PlanBoundsAreACut }
{}

/// The rounds of a plan find what they look at, and its rings have room for each item of them.
pub fn plan_rings_have_room()
    ensures { PlanRingsHaveRoom }
{}

/// In any state of a ring of a plan's stages its parcels have just what is to come.
pub fn plan_parcels_fit()
    ensures { PlanParcelsFit }
{}

/// So each parcel that a stage can take fits it.
pub fn plan_parcels_fit_stages()
    ensures { PlanParcelsFitStages }
{}

/// And parcels carry what the rounds of the equations give, up to the first stop, and each stage
/// that has not stopped holds what it is to hold.
pub fn plan_rings_are_in_rounds()
    ensures { PlanRingsAreInRounds }
{}

/// A ring of a plan's stages that is over has come to the answer of the stream equations.
pub fn plan_rings_answer()
    ensures { PlanRingsAnswer }
{}

/// So has one machine that runs all rounds of a plan.
pub fn plan_rounds_answer()
    ensures { PlanRoundsAnswer }
{}

/// A fault of start-up is the answer.
pub fn plan_faults_answer()
    ensures { PlanFaultsAnswer }
{}

/// The tapes of a plan's graph after fission are those of the nodes before it.
pub fn plans_keep_tapes()
    ensures { PlansKeepTapes }
{}
