// Takes a filter's tree.
// Gives an estimate of the work of a firing, by which stages of even work are cut.
// The theorem to rely on: `firing_estimate`: it is the sum, by the text, of the operations of the
// body of `work`, a counted loop by its turns.
// Stands on strc_parse_tree, whose trees these are, and on strc_rate_intervals, which counts the
// turns of loops.
#![tactic(auto)]

mod calls;
mod expressions;
pub mod filters;
pub mod laws;
mod statements;
mod sums;
