// Takes a program's declarations, and the statements of composite streams that say how they are put
// together.
// Gives what these do: the values of expressions, variables that are declared, assigned and left,
// what an anonymous stream sees of its surroundings; the declaration of a name and the main stream;
// splitters and joiners by their weights.
// The theorems to rely on: each step does what the definition of its statement says, or tells the
// first rule that is broken; `main_of` answers the declaration that can be the main stream; weights
// are dealt exactly where each port with items has one from 1 to 65,536, and each without has none.
// Stands on strc_work_rules, whose rules it uses, on strc_work_meaning, whose values it computes,
// on strc_elab_stream and strc_elab_graph, whose types and splitters it speaks of, and on indexmap.
#![tactic(auto)]

pub mod assignment;
pub mod captures;
pub mod declarations;
pub mod error;
pub mod evaluation;
pub mod index;
pub mod main_stream;
pub mod steps;
pub mod store;
pub mod types;
pub mod variables;
pub mod weights;
pub mod within;
pub mod written;
