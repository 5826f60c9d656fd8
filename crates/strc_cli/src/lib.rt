// Takes the words of the command line, a program's text and its input.
// Gives the printed numbers, or one named fault and the numbers before its round; or how large the
// program's graph is, or how often its nodes fire and how large its buffers are; or one named
// refusal.
// The theorems to rely on: `execute` reports exactly the answer of a text and a command: an outcome
// of its rounds that is the answer of its stream's equations, the size of its graph, its plan, or a
// refusal that holds; `execute_explained` reports the same, with what a person reads beside it.
// Stands on strc_cli_words and strc_cli_input, on strc_run, which compiles and runs a text, on
// strc_stage_plan, whose plans it answers with, on strc_cli_output, which writes and draws what it
// answers, and on strc_cli_messages, which says what is wrong and where.
#![tactic(auto)]

pub mod answer;
pub mod execute;
pub mod explanation;
mod long_plans;
mod plan_pictures;
mod programs;

pub use strc_cli_input::device;
pub use strc_cli_words::{line, words};
