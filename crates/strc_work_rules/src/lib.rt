// Takes a filter's syntax tree and the constants of its surroundings.
// Gives the tree with the constants substituted, or the first rule that it breaks.
// The theorem to rely on: `resolution::resolve_filter` answers what specs/Resolution says, at the
// place that specs/RefusedPlaces says where it refuses, and the tree is closed.
// Stands on strc_work_meaning, whose constant values it computes, on strc_parse_tree and
// strc_lex_names.
#![tactic(auto)]

pub mod context;
pub mod error;
pub mod expression_rules;
mod helpers;
mod kept;
pub mod name_text;
mod parts;
mod rates;
pub mod resolution;
pub mod signatures;
pub mod site;
pub mod statement_rules;
pub mod type_rules;
mod typed_expression;
mod writes;
