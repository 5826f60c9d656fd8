// Takes circuits, machines and orders of parts of a plan's nodes; a machine over rings after
// start-up, and a plan's graph after fission.
// Gives the stages of the plan, the collector of what they print, and a ring of them on one thread,
// whose events happen one by one (`Pipe`); the machine of the graph after fission, to which the
// state is dealt out (`deal_out`); and laws on rings of stages, and on plans that are run by them.
// The theorems to rely on: each step of a stage, and of a collector, is the one defined; that of a
// stage wants memory only for words (`quiet_stages_want_no_memory`: so none where there are none);
// `Pipe::event` answers whether the core allows the event, and lets exactly that happen; the end of
// `Pipe::drive` is over, for every start. `stages_run_alike`: a ring that is over has come to the
// outcome of the rounds, from the state that it began with; `plan_rings_answer`: and so to the
// answer of the program's stream equations; `plan_rounds_answer`: so has one machine that runs the
// rounds; `dealt_machines_hold`: what `deal_out` gives holds the state after start-up.
// Stands on strc_stage_plan, whose plans and graphs these are, on strc_sched_machine and
// strc_sched_rings, whose machine and circuit a stage has, on strc_stage_core, whose parcels and
// events these are, and on what these stand on.
#![tactic(auto)]

mod actors;
mod blocks;
mod collector;
mod collector_step;
mod crossing_items;
pub mod dealt_state;
mod empty_ring;
mod incoming_items;
pub mod laws;
pub mod memory_laws;
mod moves;
mod outgoing_items;
mod pipe;
pub mod ring_laws;
pub mod split_cut_laws;
pub mod split_rings_laws;
mod stage;
mod stage_step;
mod stage_words;

pub use actors::{CollectorActor, StageActor};
pub use collector::{Collector, CollectorParts};
pub use crossing_items::{Crossing, TapeOf};
pub use pipe::Pipe;
pub use stage::{Block, Stage, StageParts};
pub use strc_stage_core::{Event, Parts, Start};
