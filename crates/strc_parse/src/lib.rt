// Takes the tokens of a program's text.
// Gives its syntax tree, or the refusal of tokens that no program has.
// The theorem to rely on: `parse` answers Ok exactly with the tree of height at most `HEIGHT_LIMIT`
// that has this spelling. `laws`: a text spells one program.
// Stands on strc_parse_grammar, whose rules it follows and which reads what has no statement in it,
// on strc_parse_tree, whose trees it makes, and on strc_lex, whose tokens it reads.
#![tactic(auto)]

mod composition;
mod control;
mod declaration;
pub mod laws;
mod member;
mod place;
mod program;
mod simple;

pub use program::parse;
pub use strc_parse_grammar::{HEIGHT_LIMIT, ParseError, one_tree};
pub use strc_parse_tree::tree;
