// Takes nothing: what a filter's text means.
// Gives the 32-bit arithmetic, the values of constant expressions, faults, bodies, printed words,
// the constants of a filter, and names of variables with their types.
// The theorem to rely on: arithmetic and constant values are those of specs/Arithmetic and
// specs/Firing.
// The definition to believe is specs/Firing: one firing, statement by statement.
// Stands on strc_parse_tree, whose trees it speaks of.
#![tactic(auto)]

pub mod arithmetic;
pub mod body;
pub mod constants;
pub mod evaluation;
pub mod fault;
pub mod typed_scope;
pub mod types;
pub mod word;
