// Takes a program's text, its input, and which of its tapes go to files.
// Gives the words of those tapes. It writes the ones that stay.
// The theorem to rely on: `execute_out` (`reported`): the run has the answer that it has without
// files; what is written is the text of the tapes that stay, and what is given is the words of each
// tape that is named; a name that no tape has is refused before the run.
// Stands on strc_cli, whose answers and statuses these are, and on strc_cli_tapes, which names and
// parts tapes.
#![tactic(auto)]

mod answer;
pub mod execute_out;
mod message;
mod texts;
