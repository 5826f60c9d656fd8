// Takes the code of a filter that a machine fires.
// Gives 64 firings of a filter at once, and whether it does what `Identity` does.
// The theorems to rely on: `fire_lanes` gives what the filter's firings in a row give; a filter
// that `is_identity` finds keeps nothing and gives each item that it takes.
// Stands on strc_work_lanes, which runs a code for many firings at once, on strc_work, whose codes
// these are, and on strc_sched_laws and strc_elab_graph, whose definitions say what a node does.
#![tactic(auto)]

pub mod identity;
pub mod lanes;
