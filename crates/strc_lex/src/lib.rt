// Takes the bytes of a program's text, or what they are read from.
// Gives its tokens, each with its place, or the refusal of a text that is too long or has no token
// list.
// The theorems to rely on: `lex` answers Ok exactly with the tokens of the text; `read_text` reads
// no more of it than its length can be told by.
// Stands on strc_lex_names, whose names and strings tokens carry.
#![tactic(auto)]

mod characters;
pub mod error;
pub mod keyword;
pub mod lexer;
pub mod program_text;
pub mod punctuation;
mod scan;
pub mod token;
mod trivia;

pub use strc_lex_names::{memory, name, place};
