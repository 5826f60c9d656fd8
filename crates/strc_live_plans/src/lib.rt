// Takes: a plan that reads the program's input, and a live run of it: start-up, and then round by
// round, over just the items that each reads.
// Gives: laws by which live runs come to the answer of the program's stream equations, and no code.
// The theorems to rely on: `live_plans_answer`: what has been written so far is the answer of so
// many rounds over any input that begins with the items read; `live_plans_fault`: a fault of the
// next round is that of the answer of each longer run; `live_plans_serve`: the rounds are all that
// an input serves once fewer items are left than a round reads. `live_plans_begin` and
// `live_plans_go_on` lead there.
// Stands on strc_live_laws, whose live runs these are, and on strc_stage_steps, by whose laws the
// rounds of a plan come to the answer.
#![tactic(auto)]

ghost use Rattle.strc_live_plans.specs.Answers.{LiveFaultsAnswer, LiveRoundsAnswer};
ghost use Rattle.strc_live_plans.specs.Readers.{PlansReadSo};
ghost use Rattle.strc_live_plans.specs.Runs.{LivePlansAnswer, LivePlansBegin, LivePlansFault};
ghost use Rattle.strc_live_plans.specs.Runs.{LivePlansGoOn, LivePlansServe};
ghost use Rattle.strc_live_plans.specs.Startups.{StartupFaultsAnswer, StartupsGoAlike};

/// Start-up over just the items that it reads leaves the machine that it leaves over any longer
/// input.
pub fn startups_go_alike()
    ensures { StartupsGoAlike }
{}

/// And where it faults there, the fault is the answer for any longer input.
pub fn startup_faults_answer()
    ensures { StartupFaultsAnswer }
{}

/// The graph after fission has one reader; it has fired once for each item that start-up read, and
/// fires in each round once for each item that a round reads.
pub fn plans_read_so()
    ensures { PlansReadSo }
{}

/// What a live run of a plan has written is the answer of so many rounds over any input that begins
/// with the items read.
pub fn live_rounds_answer()
    ensures { LiveRoundsAnswer }
{}

/// A fault of its next round is that of the answer of each longer run.
pub fn live_faults_answer()
    ensures { LiveFaultsAnswer }
{}

/// After start-up over just the items that it reads, a live run of the plan has done no round.
pub fn live_plans_begin()
    ensures { LivePlansBegin }
{}

/// A round over as many items as a round reads makes it a live run of one round more.
pub fn live_plans_go_on()
    ensures { LivePlansGoOn }
{}

/// Once fewer items wait than a round reads, the rounds that are done are all that the input
/// serves.
pub fn live_plans_serve()
    ensures { LivePlansServe }
{}

/// What a live run of the plan has written is the answer of the rounds that are done, whatever
/// items come next.
pub fn live_plans_answer()
    ensures { LivePlansAnswer }
{}

/// A fault of its next round is that of the answer of each longer run, whatever items come next.
pub fn live_plans_fault()
    ensures { LivePlansFault }
{}
