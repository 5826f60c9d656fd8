// Takes a plan, the program's input, how many rounds and workers there are, and the units that
// stages fire in a step, such as those of a batch of rounds.
// Gives what start-up comes to on this thread: its fault, or the machine of the graph after
// fission, or the ring of stages that it leaves.
// The theorem to rely on: `launch`, whose ring is the beginning of strc_stage_steps's law, cut
// between the groups that workers share.
// Stands on strc_stage_steps, whose stages and collector it makes, by which start-up's state comes
// to the graph after fission, and whose definitions say what a ring begins with, on
// strc_sched_machine and strc_sched_rings, whose machine and circuit it parts, and on
// strc_stage_plan, whose plan it launches and whose bounds it parts it at.
#![tactic(auto)]

mod free_parcels;
mod links;
mod plan_cut;
mod plan_start;
pub mod pushes;
pub mod round_firings;
mod stage_parts;
mod stage_ring;
mod stages;
mod startup;
mod tapes;
mod units;

pub use plan_cut::even_bounds;
pub use stage_ring::{Launch, ring_by};
pub use stages::{Stages, cut, launch};
pub use startup::{Startup, start_up, start_up_in};
