// Takes nothing: this crate is tests alone.
// Gives the counts, the schedules and the runs of small graphs, each worked out by hand. There is
// no theorem here; the values are those of the balance equations, of the greedy order and of what
// each node does.
// Stands on strc_balance, strc_startup, strc_sched_orders, strc_sched, strc_sched_rings and
// strc_sched_machine, which it calls, and on strc_elab_graph, strc_work and strc_parse, of whose
// graphs, filters and texts it makes what they are given.
#![tactic(auto)]

#[cfg(test)]
mod counts;
#[cfg(test)]
mod fission_graphs;
#[cfg(test)]
mod fissions;
#[cfg(test)]
mod fused_rounds;
#[cfg(test)]
mod fused_stages;
#[cfg(test)]
mod preworks;
#[cfg(test)]
mod runs;
#[cfg(test)]
mod schedules;
#[cfg(test)]
mod sizes;
#[cfg(test)]
mod small_graphs;
#[cfg(test)]
mod splits;
#[cfg(test)]
mod stages;
