// Takes a plan, the program's input, how many rounds there are, and a batch of the plan.
// Gives the tapes of start-up and so many rounds on one thread, or by the plan's stages, first the
// rounds that are no whole batch and then the batches; or none, where a firing faults.
// The theorem to rely on: `run_by_batches`, whose tapes are the answer of the stream equations, and
// which gives some wherever the rounds one by one come to their end; so are those of
// `run_stages_by_batches`.
// Stands on strc_batch, whose batches it runs, on strc_batch_plans, whose laws say what they come
// to, on strc_stage_cut, which starts the plan up and makes its stages, on strc_run_workers, which
// runs them, and on strc_sched and strc_stage, which run rounds of units and name their outcome by
// the nodes before fission.
#![tactic(auto)]

pub mod by_batches;
pub mod by_stages;
pub mod done_tapes;
mod repeated_order;
