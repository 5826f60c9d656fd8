// Takes nodes and the channels between their ports.
// Gives the flat graph of a program, its readers, the rates of its nodes by port, and what they
// mean.
// The theorem to rely on: a graph's channels join ports of its nodes, and its readers give what
// went in.
// Stands on strc_elab_dataflow, whose flat graphs give the meaning, on strc_work_code, whose codes
// its filters hold, and on strc_work_meaning, whose bodies they have.
#![tactic(auto)]

pub mod condition;
pub mod graph;
pub mod instance;
pub mod laws;
pub mod node_copy;
pub mod rates;
pub mod tapes;
