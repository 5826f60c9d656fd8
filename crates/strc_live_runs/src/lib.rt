// Takes a plan that reads the program's input, and the items of start-up and of one round after
// another.
// Gives the words of its tape, round by round, each over just the items that it reads.
// The theorem to rely on: `LiveRun::round`: a run that goes on so comes to the answer of as many
// rounds over any input that begins with the items read, and a fault of a round is that of each
// longer run.
// Stands on strc_live_plans, whose laws say so, on strc_stage_cut, by which it starts, and on
// strc_sched_machine, whose machine it runs.
#![tactic(auto)]

pub mod laws;
pub mod live_run;
pub mod start;
mod window;
