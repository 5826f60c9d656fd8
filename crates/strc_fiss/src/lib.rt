// Takes a flat graph, how often its nodes fire in a round, and a schedule of it.
// Gives the graph and the schedule after fission: filters without state are split among copies.
// The theorem to rely on: `fission`: nodes, channels and units are exactly those of the definition
// of fission, the buffers are those that they need, and the new round is an order where the old one
// is.
// Stands on strc_rate, which tells filters without state, on strc_sched_orders, whose schedules and
// sizes these are, on strc_balance, whose counts it takes, on strc_elab_graph, whose nodes it
// makes, on strc_fuse, whose view of units it shares, on strc_elab_dataflow, strc_sched_laws, whose
// laws are on split nodes, and on strc_work_code, strc_work_meaning, strc_parse_tree and
// strc_lex_names.
#![tactic(auto)]

mod channels;
pub mod error;
pub mod fission;
pub mod laws;
mod numbers;
mod own_units;
mod parts;
mod rounds;
pub mod split;
mod unit_copies;
mod ways;
