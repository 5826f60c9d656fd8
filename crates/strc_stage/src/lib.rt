// Takes a plan, the program's input, and how many rounds and how many workers there are.
// Gives the plan's ring of stages, whose events may come in any order (`pipe`), and the outcome
// that a run comes to, by the nodes before fission (`collector_outcome`, `old_names`).
// The theorem to rely on: `Pipe::finish`, whose outcome is the answer of the stream equations.
// `parcels_fit_stages`: in any of its states each parcel that a stage can take fits it.
// Stands on strc_stage_cut, which starts the plan up and cuts it into stages, on
// strc_stage_steps, whose laws say that a ring comes to the answer, and on strc_sched_outcome.
#![tactic(auto)]

pub mod collector_outcome;
mod firings;
pub mod laws;
pub mod old_names;
pub mod pipe;

pub use strc_stage_core::{Actor, Event, Parcel};
pub use strc_stage_cut::{Stages, cut};
pub use strc_stage_plan::plan;
pub use strc_stage_steps::{Collector, Parts, Stage};
