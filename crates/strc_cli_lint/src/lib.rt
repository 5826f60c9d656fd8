// Takes a program's text that is accepted.
// Gives what may be a mistake in it, as messages: streams that are never added, nodes on which no
// output depends, operators of constants that wrap, shifts to the right that keep a sign,
// statements that do nothing, helper functions that may end without their value.
// The theorem to rely on: `exact`: what constants come to is what their operator gives; which parts
// of a text are told is tested.
// Stands on strc_parse and strc_lex, whose trees and tokens these are, on strc_elab,
// strc_elab_flattening, strc_elab_graph and strc_work_code, whose nodes fire, on
// strc_elab_statements, which says what can be the main stream, and on strc_cli_source, which
// builds messages.
#![tactic(auto)]

mod constants;
mod declarations;
mod effects;
mod expressions;
mod finding;
pub mod lint;
mod nodes;
mod sentences;
mod statements;
