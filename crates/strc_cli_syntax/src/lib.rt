// Takes a program's text with its tokens, and a token or a number that can't stand where it is.
// Gives what a person reads of it: the token, what could be there, and how it can be mended, by
// what people type who know C or other forms of StreamIt.
// The theorem to rely on: `push_syntax`: the sentence is about the very token that can't stand
// where it is.
// Stands on strc_cli_source, which builds messages, and on strc_lex and strc_parse, which try what
// could be there.
#![tactic(auto)]

mod expected_tokens;
pub mod foreign_words;
pub mod hint_words;
pub mod number_hints;
mod open_braces;
pub mod operators;
pub mod place_words;
pub mod syntax;
pub mod syntax_hints;
