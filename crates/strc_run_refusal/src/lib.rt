// Takes the errors of the layers that a text goes through.
// Gives the refusal of the text that each is, with its statement, stream and graph
// (`placed_refusal`).
// The theorem to rely on: errors become what `Reports` says.
// Stands on strc_elab_statements, strc_balance, strc_startup and strc_sched_orders, whose errors
// become refusals, and on strc_elab_stream, strc_elab_graph and strc_work_rules, whose streams,
// graphs and sites these keep.
#![tactic(auto)]

pub mod placed_refusal;
pub mod refusal;
mod sentence;
