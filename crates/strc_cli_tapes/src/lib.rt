// Takes a program's flat graph, and the tapes of its run.
// Gives the names of its tapes, and the tapes that stay where some go to files of their own.
// The theorem to rely on: `named_tapes` gives exactly the names of the definition; `staying` and
// `words_of` part the tapes: `parted_tapes` says that each is in one half, and as it was.
// Stands on strc_elab_graph, whose nodes have the tapes, and on strc_sched_outcome, which has their
// words.
#![tactic(auto)]

pub mod names;
pub mod parted;
