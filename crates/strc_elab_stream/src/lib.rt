// Takes nothing: this crate is types, definitions and laws.
// Gives the stream of instances that a program means, the types of its streams, what its flat graph
// is, and its channels by recursion over it (`wiring_laws`).
// The theorems to rely on: the flat graph of a stream is one; `wires_are_flat`: channels by
// recursion are its graph's.
// Stands on strc_elab_graph, whose nodes streams become, and on strc_elab_dataflow, whose trees
// give streams their meaning.
#![tactic(auto)]

pub mod added;
pub mod laws;
pub mod stream;
pub mod wiring_laws;
