// Takes the words of the command line.
// Gives the command that the words ask for, or why they are none.
// The theorem to rely on: `command` answers a line exactly where clap, given the description of our
// commands, takes the words, and then the line that they ask for.
// Stands on clap, which parses the words.
#![tactic(auto)]

pub mod line;
pub mod words;
