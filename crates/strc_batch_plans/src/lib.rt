// Takes: a plan in groups that no stage parts, sizes of rings for batches of its rounds, and a
// machine after start-up that holds the state dealt out to such rings.
// Gives: laws on plans by batches of rounds; each is the contract of a public function with an
// empty body, and there is no code. The theorems to rely on: `plan_batches_answer` and
// `plan_batch_rings_answer`: where one machine, or a ring of stages, comes to the end of the
// batches after the rounds that are no whole batch, its words are the answer for all the rounds;
// `plan_rounds_end_by_batches` and `plan_batch_rings_end`: so they do wherever the rounds one by
// one come to their end; `plan_batches_have_room` and `plan_batch_parcels_fit`: rings and parcels
// fit.
// Stands on strc_batch_laws, whose laws these are instances of, on strc_batch_cut, for stages of
// whole groups, and on strc_stage_steps, whose machines and stages run the batches.
#![tactic(auto)]

ghost use Rattle.strc_batch_plans.specs.Batched.{BatchesGoOn, RoundsEndByBatches};
ghost use Rattle.strc_batch_plans.specs.Plans.{PlanBatchesAnswer, PlanBatchesHaveRoom};
ghost use Rattle.strc_batch_plans.specs.Plans.{PlanBatchParcelsFit, PlanBatchRingsAnswer};
ghost use Rattle.strc_batch_plans.specs.Plans.{PlanBatchRingsEnd, PlanRoundsEndByBatches};
ghost use Rattle.strc_batch_plans.specs.Plans.{PlanUnitsAreBatch};
ghost use Rattle.strc_batch_plans.specs.Rows.{BatchMachineRow};
ghost use Rattle.strc_batch_plans.specs.Rings.{BatchesAreRunning, BatchRingsEnd, BatchRingsTell};

/// After the rounds that are no whole batch, one machine goes on by batches: rings have room, and
/// the words that it comes to are those of the rounds.
pub fn batches_go_on()
    ensures { BatchesGoOn }
{}

/// Where the machine comes to the end of the rounds one by one, it comes to the end of the batches.
pub fn rounds_end_by_batches()
    ensures { RoundsEndByBatches }
{}

/// Batches meet what a ring of stages asks of rounds, with a step a batch.
pub fn batches_are_running()
    ensures { BatchesAreRunning }
{}

/// A ring of stages that comes to the end of the batches has the words of the rounds.
pub fn batch_rings_tell()
    ensures { BatchRingsTell }
{}

/// Where the rounds come to their end, such a ring stops for nothing but memory.
pub fn batch_rings_end()
    ensures { BatchRingsEnd }
{}

/// A plan's batches go on from what its machine has come to by the rounds before them, and its
/// rings have room in each.
pub fn plan_batches_have_room()
    ensures { PlanBatchesHaveRoom }
{}

/// Where one machine comes to the end of a plan's batches, its words are the answer of the stream
/// equations for all the rounds.
pub fn plan_batches_answer()
    ensures { PlanBatchesAnswer }
{}

/// Where a ring of stages of whole groups does, so are its collector's.
pub fn plan_batch_rings_answer()
    ensures { PlanBatchRingsAnswer }
{}

/// A plan's machine stops in the rounds before the batches, or in these, only at a fault of the
/// rounds.
pub fn plan_rounds_end_by_batches()
    ensures { PlanRoundsEndByBatches }
{}

/// Where they come to their end, a ring of stages stops for nothing but memory.
pub fn plan_batch_rings_end()
    ensures { PlanBatchRingsEnd }
{}

/// In any state of such a ring each parcel that waits is stopped, or has what is to come in its
/// batch.
pub fn plan_batch_parcels_fit()
    ensures { PlanBatchParcelsFit }
{}

/// A plan's units, group by group and each group so many times over, fire its batch.
pub fn plan_units_are_batch()
    ensures { PlanUnitsAreBatch }
{}

/// A source and a writer, seven rounds by batches of three.
pub fn batch_machine_row()
    ensures { BatchMachineRow }
{}
