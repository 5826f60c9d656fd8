// Takes a flat graph.
// Gives its repetition vector: the least counts at which its nodes fire in one round.
// The theorem to rely on: the counts are the least positive solution of the balance equations (Lee
// and Messerschmitt 1987), and a refusal says that none exists within the limit, or none at all.
// Stands on strc_elab_graph, whose graph it takes and whose rates by port it balances, on
// strc_lex_names, and on strc_parse_tree, in whose trees the filters of its examples are written.
#![tactic(auto)]

pub mod balance;
mod bits;
pub mod condition;
pub mod counts;
mod equation;
pub mod error;
mod fraction;
mod incidence;
pub mod laws;
mod multiples;
pub mod number_set;
mod propagation;
mod rates;
mod solution;

pub use fraction::COUNT_LIMIT;
