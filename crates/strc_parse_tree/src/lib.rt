// Takes nothing: the syntax tree of a program.
// Gives its types, and nodes made of their parts.
// The theorem to rely on: a tree's view (specs/View) is what contracts see of it.
// Stands on strc_lex_names, whose names it holds.
#![tactic(auto)]

pub mod node;
pub mod operator;
pub mod tree;
