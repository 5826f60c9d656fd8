// Takes slots of lowered code, and what is to be done with them.
// Gives C: an abstract syntax of the statements that the bodies of functions are written in, and
// their text.
// The theorems to rely on: each function adds the text of the statements that it names, by
// specs/Spelling.
// Stands on strc_parse_tree and strc_work_meaning, whose operators and causes it names, on
// strc_lex_names, and on itoa.
#![tactic(auto)]

pub mod blocks;
pub mod calls;
pub mod expressions;
pub mod function;
pub mod names;
pub mod statements;
pub mod text;
pub mod words;
