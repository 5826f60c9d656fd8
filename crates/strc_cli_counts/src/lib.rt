// Takes a flat graph of which a channel can't be balanced, or nodes fire too often in a round.
// Gives what a message tells of it: how many items come to the two ends of the channel, and the
// channel that makes a count too large.
// The theorem to rely on: a channel that is given is one of the graph's; which one it is, and the
// numbers of items, are tested.
// Stands on strc_elab_graph, whose graphs these are, on strc_balance, which bounds the counts, and
// on strc_cli_source, which tells what the ends of a channel move.
#![tactic(auto)]

pub mod large;
mod shares;
pub mod unbalanced;
