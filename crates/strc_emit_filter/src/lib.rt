// Takes lowered code of a filter, and the values that its fields begin with.
// Gives its C: its fields, and a function for each helper function and each body.
// The theorem to rely on: `push_filter` adds the text that specs/Filters says, for arrays among the
// slots in which the code finds those that it works on.
// Bodies have no tests of what they pop, look at and push where the text closes each peek.
// Stands on strc_rate, which says so; on strc_emit_code, which writes bodies, on strc_emit_c, whose
// names it writes, on strc_work_code, whose code it reads, on strc_work_meaning and strc_parse_tree
// for its tree, on strc_lex_names, and on strc_emit_text.
#![tactic(auto)]

pub mod arrays;
mod bodies;
mod fields;
pub mod filters;
mod helpers;
mod locals;
