// Takes a flat graph, the rings of its channels and the program's input.
// Gives what stays the same in a run over rings, of all nodes or of a part of them (`Circuit`:
// copies of the nodes, the rings at their ports, the input); and moves of items: in and out of a
// ring, from ring to ring, and the firings of the nodes that only pass items on.
// The theorems to rely on: `Circuit::new`, `Circuit::part`: the ring of each channel is at both of
// its ends, and nowhere else; each move and each firing leaves the rings as its definition says,
// and a firing that doesn't find its windows leaves all as it was.
// Stands on strc_sched_laws, whose definitions say what a circuit and a firing over rings are, on
// strc_elab_graph, whose nodes it copies, on strc_sched_orders, whose units it copies, and on
// circular_buffer, whose rings hold the items.
#![tactic(auto)]

pub mod circuit;
pub mod copy;
pub mod gather;
pub mod item_moves;
pub mod laws;
pub mod movers;
mod node_copies;
pub mod pair;
pub mod port_rings;
pub mod range;
pub mod ring;
pub mod scatter;
pub mod units;
pub mod weighted_turns;
