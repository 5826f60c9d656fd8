// Takes the tree of a filter's statements.
// Gives which variables they write, and whether a filter's work writes a field, itself
// (`field_writes`) or by the helper functions that it calls (`helper_writes`).
// The theorem to rely on: each gives exactly what its definition in specs/ says of the text.
// Stands on strc_work_meaning, whose filters these are, and on strc_parse_tree.
#![tactic(auto)]

mod calls;
pub mod field_writes;
pub mod helper_writes;
pub mod writes;
