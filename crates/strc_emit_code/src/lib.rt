// Takes lowered code.
// Gives its C: a statement or a few for each instruction, and C's choices and loops for those of
// the code.
// The theorem to rely on: `push_node` adds the text of `emitted` of the code that a node means.
// Stands on strc_emit_c, whose statements it writes, on strc_work_code, whose code it reads, and on
// strc_work_meaning and strc_parse_tree, whose operators and causes it names.
#![tactic(auto)]

mod calls;
mod conditions;
mod instructions;
pub mod nodes;
mod numbers;
