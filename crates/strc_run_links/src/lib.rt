// Takes the stages and the collector of a ring, its free parcels, and a gate for the steps.
// Gives the parts of the ring after its workers have ended: what each link and each worker holds.
// On the way: the two ends of a link (`link`, `close`), a worker's whole body (`work`), workers
// joined into a ring (`run_ring`), and the times of stages (`times`).
// The theorems to rely on: `close`: nothing was lost on a link, and nothing came twice; `work`:
// what was sent and then the parcel that is held are the actor's steps over what was received;
// `run_ring`: so of all workers, and what an actor gave is what the next one took and what is left
// between them. The definitions to believe are specs/Links, specs/Working and specs/States. `laws`
// has such a ring as a state of the core.
// Stands on strc_stage_core, whose parcels and states these are, and on crossbeam_channel, whose
// bounded channels keep a caller's rule.
#![tactic(auto)]

mod begun;
mod body;
mod collector_thread;
mod ends;
mod failure;
mod gate;
pub mod laws;
mod leftover_parts;
mod lines;
mod link_pair;
mod ring_links;
mod ring_run;
mod rule;
mod rx;
mod shapes;
mod stacks;
#[cfg(test)]
mod tests;
mod times;
mod tx;
mod view;
mod worker_end;
mod worker_join;
mod worker_start;

pub use body::work;
pub use failure::Failure;
pub use gate::{Gate, OpenGate};
pub use lines::{alone_line, stage_line};
pub use link_pair::{close, link};
pub use ring_run::{run_ring, run_ring_on};
pub use rx::Rx;
pub use stacks::{Deep, Stacks};
pub use strc_stage_core::{Actor, Parts, Start};
pub use times::{STAGE_LIMIT, StageTime, StageTimes};
pub use tx::Tx;
pub use worker_end::Worked;
