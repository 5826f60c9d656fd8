// Takes a stream of instances.
// Gives its flat graph: its nodes in preorder and the channels between their ports. The theorem to
// rely on: `flatten`'s graph is the flat graph of the stream's tree, for which the run is proved.
// Stands on strc_elab_stream, whose laws say which channels those are, on strc_elab_graph, which
// gives graphs their meaning, and on strc_elab_statements for its refusals.
#![tactic(auto)]

mod channels;
mod connection;
pub mod flatten;
mod limits;
mod loops;
mod nodes;
mod parts;
mod size;
mod tapes;
