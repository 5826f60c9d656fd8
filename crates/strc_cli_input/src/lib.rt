// Takes the bytes of the program's input, as a device gives them.
// Gives the numbers that they spell, or the word that is no number.
// The theorem to rely on: `read_numbers`: numbers that are read piece by piece are those of the
// whole input.
// Stands on no other crate.
#![tactic(auto)]

pub mod device;
pub mod input;
pub mod input_laws;
pub mod number_reader;
pub mod numbers;
pub mod watched_input;
pub mod watched_output;
