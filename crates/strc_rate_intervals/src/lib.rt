// Takes the tree of expressions, statements and loops.
// Gives what the text tells of values: constants, intervals, and how often counted loops turn.
// The theorem to rely on: each gives exactly what its definition in specs/ says of the text.
// Stands on strc_work_writes, which knows the variables that a loop's body writes, on
// strc_work_meaning, whose constants it evaluates, and on strc_parse_tree.
#![tactic(auto)]

pub mod constant;
pub mod interval;
pub mod interval_scope;
pub mod intervals;
pub mod loops;
