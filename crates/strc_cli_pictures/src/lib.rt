// Takes a stream and its flat graph, or a plan with its stages, and how often nodes fire.
// Gives pictures of them as texts for Graphviz.
// The theorems to rely on: `picture` and `plan_picture` give just the texts of their definitions: a
// line for each node and for each channel, and boxes, as the stream's tree has composite streams,
// or as the plan has stages and fused units.
// No clause says which shares `shares_in` finds in a text: tests do.
// Stands on strc_elab_stream and strc_elab_graph, whose streams and channels it draws, on
// strc_sched_orders, whose units, on strc_elab_paths, which names nodes, on strc_fiss, which says
// where they come from, on strc_cli_output, which adds pieces to a text, and on itoa.
#![tactic(auto)]

mod boxes;
mod channels;
mod large_numbers;
mod legend;
mod nodes;
pub mod parts;
pub mod picture;
mod stages;
mod tapes;
pub mod times;
mod units;
