// Takes a plan.
// Gives the text of a C program for it.
// The theorem to rely on: `emit` gives the text that specs/Programs of strc_emit_program says of
// the plan's graph and schedule, or refuses the plan exactly where its arrays and the slots of its
// filters would have more items than there may be. What this C does is said above, by
// strc_emit_texts.
// Stands on strc_emit_program, which writes the text, on strc_emit_moves, which tells how large the
// arrays are, on strc_work_code and strc_work_meaning for the slots of filters, on strc_stage_plan,
// whose plans it takes, with strc_balance, strc_sched_orders and strc_elab_graph for their parts,
// on strc_sched_rings for the channel at each port, and on strc_lex_names.
#![tactic(auto)]

pub mod emit;
mod ports;
mod slots;
