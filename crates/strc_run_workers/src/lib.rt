// Takes a plan, the program's input, and how many rounds and how many workers there are.
// Gives the outcome of start-up and so many rounds of the plan's graph after fission, by the nodes
// before it: on one thread, or by the stages of the plan, each on a thread of its own.
// The theorem to rely on: `run_stages`, whose outcome is the answer of the stream equations, as
// that of `run_alone` is.
// Stands on strc_stage, which knows the outcome of a ring, on strc_run_links, whose workers hand
// parcels on, on strc_sched, which runs rounds on one thread, and on strc_stage_steps, in which
// what workers leave goes on.
#![tactic(auto)]

pub mod alone;
mod leftover_ring;
pub mod stage_rounds;
