// Takes a resolved filter's tree.
// Gives its code: slots for its names, nodes for its bodies, and their flat form.
// The theorem to rely on: `emission::emit_filter` gives the code whose nodes are those that
// specs/Lowering says of the tree, and whose flat form does the same.
// Stands on strc_work_linearization, which makes codes flat, on strc_work_code, whose codes it
// writes, on strc_work_meaning, whose filters they mean, and on strc_parse_tree, whose trees it
// reads.
#![tactic(auto)]

mod builder;
mod comparison;
pub mod emission;
mod expression_code;
mod helper_code;
mod layout;
mod operands;
mod routine;
mod statement_code;
