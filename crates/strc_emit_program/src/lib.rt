// Takes a flat graph, how often its nodes fire, and its orders of firings.
// Gives its C: arrays for channels, functions for nodes, orders as calls of these, and what is the
// same in every program.
// The theorem to rely on: `program_text` gives a text of which specs/Programs says each part.
// Stands on strc_emit_filter, which writes filters, on strc_emit_moves, which writes the other
// nodes and the arrays, on strc_emit_operators, whose functions filters call, on strc_emit_text, on
// strc_elab_graph and strc_sched_orders, whose nodes and orders it reads, on strc_work, which
// starts filters, on strc_work_code and strc_lex_names.
#![tactic(auto)]

mod fires;
mod fixed;
mod nodes;
mod orders;
pub mod program;
