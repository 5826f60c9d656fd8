// Takes nothing: this crate is tests alone.
// Gives rings of stages that are made by hand, in threads and by events in an order of one's own,
// and links with what they carry. There is no theorem here: what comes out is worked out by hand.
// Stands on strc_run_links, whose links and rings of threads it drives, and on strc_stage_steps and
// strc_stage_core, whose pipes and parcels.
#![tactic(auto)]

mod collectors;
mod idle_stages;
#[cfg(test)]
mod links;
#[cfg(test)]
mod parcels;
#[cfg(test)]
mod pipe_ends;
mod pipes;
#[cfg(test)]
mod rendezvous;
#[cfg(test)]
mod toy_rings;
#[cfg(test)]
mod toy_stages;

pub use collectors::Counter;
pub use idle_stages::Idle;
pub use pipes::ring;
