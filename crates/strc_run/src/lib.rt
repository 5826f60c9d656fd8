// Takes a program's text.
// Gives a plan, its main stream's flat graph with the counts of start-up and of a round, with its
// schedule and with both after fission and fusion, or the first refusal; and runs plans.
// The theorem to rely on: `compile` refuses exactly where a layer does, and the outcome of a plan's
// rounds is the answer of its stream's equations (`laws::plans_answer_texts`).
// Stands on strc_lex, strc_parse, strc_elab, strc_elab_flattening, strc_rate, strc_balance,
// strc_startup, strc_sched_orders, strc_fiss and strc_fuse, whose rules a text keeps, on
// strc_run_refusal, whose refusals and outcomes it gives and passes on, on strc_stage_plan, whose
// plans it gives, on strc_sched and strc_run_workers, which run schedules and stages, and on
// strc_batch and strc_run_batches, which run rounds by batches.
#![tactic(auto)]

pub mod compile;
pub mod laws;
pub mod options;
mod rates;
pub mod run;
pub mod sharing;
mod single_run;
mod staged_run;
mod transformations;

pub use strc_run_links::{Gate, OpenGate, Rx, Tx, Worked, close, link, work};
pub use strc_run_refusal::refusal;
