// Takes nothing: these are the answers of runs.
// Gives how a run ends, with its tapes or the firing that faulted and its round, why it stops short
// of its rounds, and why there is none.
// The theorem to rely on: the sentences of refusals are those of `Sentences`.
// Stands on strc_work_meaning, whose words are printed and whose causes firings fault for.
#![tactic(auto)]

pub mod outcome;
pub mod run_refusal;
pub mod stop;
