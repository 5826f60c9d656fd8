// Takes the parts of a plan: a graph, its counts and its schedule, before and after fission and
// fusion; for its laws, the state that start-up left, dealt out to the parts of fission.
// Gives the `Plan` that can be run, the bounds of its stages: groups of nodes shared evenly among
// workers (`cut_laws`, `bounds`), and laws on graphs after fission (`split_laws`), and on how they
// go on from that state by stages (`split_stages_laws`, `split_channels_laws`).
// The theorems to rely on: a plan's invariant, `IsPlan`; `bounds_are_listed` and
// `channels_go_forward`: the groups are all nodes, and no channel goes back from one to an earlier
// one; `fused_fission_keeps_answers`: the rounds after fission and fusion come to the answer of the
// graph before them; `split_graphs_resume`: the graph after fission, restarted at that state, can
// be run by stages of its round, fused or not; `split_graphs_are_by_channels`: its flat graph is
// that of its nodes and channels, as laws on machines of rings ask.
// Stands on strc_fiss and strc_fuse, whose transformed schedules a plan has, on strc_sched_laws,
// which says what is planned, on strc_elab_stream, of whose wires groups are, and on
// strc_elab_dataflow, of whose laws these are instances.
#![tactic(auto)]

pub mod bounds;
pub mod cut_laws;
pub mod laws;
pub mod plan;
pub mod split_channels_laws;
pub mod split_laws;
pub mod split_stages_laws;
mod unit_span;
