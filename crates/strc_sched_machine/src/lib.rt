// Takes a flat graph, sizes for its channels, and an order of units.
// Gives a machine that fires the graph's nodes, or those of a part of it, over rings.
// The theorem to rely on: `fire_order` does what the definition of an order's run says, firing by
// firing, and each change of a machine by its owner is just what is said of it.
// Stands on strc_sched_laws, whose definitions say what a run over rings is, on strc_sched_rings,
// whose circuits it runs and which moves items over rings, on strc_sched_orders, whose units it
// fires, on strc_work, whose codes it fires, and on strc_sched_filters, which fires a code many
// times at once.
#![tactic(auto)]

mod access;
mod actor;
pub mod batches;
mod block;
mod chains;
mod filter;
mod forwarded_items;
mod forwarding_list;
mod kept_state;
mod lanes;
pub mod laws;
pub mod machine;
mod part_machine;
mod renewed_machine;
mod stateless_nodes;

pub use strc_sched_rings::{circuit, units};
