// Takes a flat graph, and how often its nodes fire in start-up and in a round.
// Gives orders of these firings, and the sizes of all buffers, also for orders that are given.
// The theorem to rely on: `schedule` gives greedy orders in which each firing finds its windows,
// and buffers of just the sizes that they need; where it says Deadlock, no order exists.
// Stands on strc_startup, whose rates by channel it reads, on strc_balance, whose counts it takes,
// on strc_elab_graph, and on strc_work_meaning and strc_parse_tree, by whose filters a law tells
// first firings.
#![tactic(auto)]

pub mod buffer_sizes;
mod buffers;
pub mod error;
mod greedy;
pub mod laws;
pub mod limit;
mod network;
mod padded_counts;
pub mod parts;
mod peaks;
mod progress;
mod round_rates;
pub mod scheduler;
mod turns;
pub mod unit;
