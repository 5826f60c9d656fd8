// Takes a flat graph with its schedule, and the program's input.
// Gives the outcome of start-up and so many rounds on one thread.
// The theorem to rely on: `run_plain` gives the answer of the stream equations, for whatever
// stream's flat graph this is.
// Stands on strc_sched_machine, whose machine it runs, on strc_sched_laws, whose laws say that a
// schedule is admissible and that a run over rings gives the answer, on strc_sched_orders, whose
// schedules it runs and passes on, and on strc_sched_outcome, whose outcomes it gives and passes
// on.
#![tactic(auto)]

mod needed_input;
pub mod plain;
pub mod served_rounds;
mod tapes;

pub use strc_sched_orders::{buffer_sizes, error, laws, parts, scheduler, unit};
pub use strc_sched_outcome::{outcome, run_refusal};
