// Takes a filter's syntax tree and its constants.
// Gives its lowered code, the state that it starts from, and its firings: the machine that runs
// code over slots, a firing's port and its io (`machine`). And laws on the rules of types (`laws`).
// The theorems to rely on: a firing of the code is the big-step meaning of the tree; `machine::run`
// does what the code says; `walk_accepts_filters`: the rules accept a filter exactly where it is
// well typed.
// Stands on strc_work_rules, whose rules it asks, on strc_work_lowering, which writes the code, on
// strc_work_instructions, which does one instruction, and on strc_work_meaning, whose meaning it
// keeps.
#![tactic(auto)]

mod apart;
pub mod calls;
mod counted_loop;
pub mod firing;
pub mod frame;
pub mod laws;
mod line;
pub mod lowering;
pub mod machine;
mod product;
mod short_loop;
pub mod state;
mod tested_loop;

pub use strc_lex_names::memory;
pub use strc_work_code::code;
pub use strc_work_instructions::{shifted_window, window};
pub use strc_work_meaning::{body, constants, fault, word};
pub use strc_work_rules::error;
