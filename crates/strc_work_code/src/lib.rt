// Takes the parts of lowered code: instructions, nodes, a filter's routines.
// Gives the code of a filter as others hold it, and tells what it is made of.
// The theorem to rely on: each routine of a `Code` is the code that its filter's tree is lowered
// to, and its flat form does the same.
// Stands on strc_work_meaning, whose filters its codes are, on strc_parse_tree, whose trees they
// keep, on strc_rate_intervals, which tells whether a filter's work writes a field, and on
// strc_lex_names.
#![tactic(auto)]

pub mod bodies;
pub mod call;
pub mod code;
pub mod condition;
pub mod helper;
pub mod inst;
pub mod limits;
pub mod node;
pub mod returns;
mod stateless;
