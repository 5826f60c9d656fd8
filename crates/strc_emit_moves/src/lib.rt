// Takes a flat graph, which channel is at each port, and how often each node fires.
// Gives the layout of the arrays of channels: where firings have their items there, and how large
// they are; and the C of the nodes that only pass items on.
// The theorems to rely on: `taken_at`, `given_at` and `total_room` give what specs/Places says, and
// each writing function adds the text that specs/Moves says.
// Stands on strc_emit_text, by which it writes, on strc_elab_graph, whose nodes and rates it reads,
// and on strc_lex_names.
#![tactic(auto)]

pub mod arrays;
pub mod moves;
pub mod places;
