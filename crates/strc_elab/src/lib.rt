// Takes a program's tree.
// Gives the stream of instances that its main stream means. The theorem to rely on: `elaborate`
// answers the stream that the definitions give, or the first rule that is broken; a stream that it
// answers is closed, and its types fit. `elaborate_placed` answers the same, a refusal with the
// place of the statement that broke the rule; for weights that is the `split` or `join` that says
// them, for a pipeline's ends the statement that adds the child there.
// Stands on strc_elab_statements, which finds declarations, deals weights and has the steps of a
// body's statements, on strc_work, whose codes filters get, on strc_elab_stream and
// strc_elab_graph, whose streams and splitters it makes, and on indexmap.
#![tactic(auto)]

mod assembly;
mod body;
mod child;
mod compose;
mod declared_text;
pub mod elaborate;
pub mod laws;
mod level;
pub mod placed_error;
mod progress;
mod task;
mod text;
mod trace;

pub use strc_elab_flattening::flatten;
pub use strc_elab_graph::{condition, graph};
pub use strc_elab_statements::error;
pub use strc_elab_stream::stream;
