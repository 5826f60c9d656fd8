// Takes a live run after start-up, and the input that its rounds read.
// Gives the words of one round after another, each as soon as the input has given what it reads.
// The theorem to rely on: `LiveFeed::advance`: the run has read just the numbers that the input has
// given, but for those of a round that waits; where the input ends, or a word of it writes no
// number, or a read fails, fewer numbers wait than a round reads.
// Stands on strc_live_runs, whose runs it feeds, and on strc_cli_input, which reads the numbers.
#![tactic(auto)]

pub mod begin;
pub mod live_feed;
