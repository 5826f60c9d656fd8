// Takes a plan, and how many workers there are.
// Gives stages of even work: the work of the plan's nodes, of a firing and of a round, by the texts
// of their filters, and bounds of stages by it, one for each worker, or for each group of nodes
// where these are fewer.
// The theorem to rely on: `weighed_bounds`: its bounds are those of the definition, by the work of
// the nodes in a round, and they are a cut of the plan into stages of whole groups; so no stage has
// more than its even share of all work and the group with the most, as strc_batch_cut shows.
// Stands on strc_batch_cut, of whose bounds by weight these are an instance, on strc_rate_estimate,
// which estimates the firings of filters, and on strc_stage_plan, whose plan and groups it takes.
#![tactic(auto)]

pub mod bounds;
pub mod firing_work;
mod group_work;
pub mod laws;
pub mod node_work;
mod stage_groups;
pub mod step_rounds;
mod unit_work;
