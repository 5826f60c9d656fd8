// Takes: a flat graph, a schedule of it, and the greatest length of a fused unit's list.
// Gives: the schedule with the units of its round fused, in place or beside the old one, and laws
// on such schedules.
// The theorems to rely on: `fuse`: the units are exactly the fused ones, the buffers are those that
// they need, and where the schedule could be run before, it can be run still; `fused_are_planned`:
// a planned schedule's fused one is planned, with the same counts.
// Stands on strc_elab_dataflow, whose laws on fused units it applies, on strc_sched_orders, whose
// units and sizes these are, on strc_sched_laws, which says what is planned, and on
// strc_elab_stream, of whose wires the graph's order is.
#![tactic(auto)]

pub mod error;
mod freedom;
pub mod fuse;
pub mod fused_laws;
pub mod laws;
mod lists;
mod unit_join;
mod units;
