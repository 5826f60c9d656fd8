// Takes a flat graph.
// Gives how often its nodes fire before the first round.
// The theorem to rely on: `startup` gives the least counts that prime the graph; where it gives
// none, none within the limit do.
// Stands on strc_elab_graph, whose graphs it reads, and on strc_balance, whose counts it gives.
#![tactic(auto)]

pub mod channel_rates;
pub mod error;
pub mod laws;
pub mod positions;
mod prime_counts;
pub mod rates;
pub mod startup;
