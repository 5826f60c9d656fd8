// Takes bytes and numbers.
// Gives text that is put together of them.
// The theorems to rely on: `push_pieces` and `push_numbers` add the texts that specs/Texts and
// specs/Numbers say.
// Stands on strc_lex_names and itoa.
#![tactic(auto)]

pub mod numbers;
pub mod pieces;
