// Takes what a command is answered: an outcome, the size of a graph, a plan, or why there is none.
// Gives the text that is written.
// The theorems to rely on: `outcome_text`, `check_text`, `plan_text` and `stop_text` give exactly
// the text of specs/Output, and `long_plan_text` one of specs/Works.
// Stands on strc_run_refusal, whose outcomes and refusals it writes, on strc_stage_plan, whose
// plan, on strc_stage_weights, which says what work its nodes have, on strc_elab_stream and
// strc_elab_graph, whose streams and channels, on strc_elab_paths, which names them, and on itoa.
#![tactic(auto)]

pub mod node_order;
pub mod outcome;
pub mod output;
pub mod stop;
pub mod text;
mod totals;
pub mod works;
