// Takes a filter's code, and how a firing or the start of it faulted.
// Gives the statement of its text in which it can have faulted so, where there is just one.
// The theorems to rely on: `occurrences`, `occurrences_in_firing` and `occurrences_at_start` find,
// of each part of a filter's text that can fault so, in order, the innermost statement around it,
// the latter two also in its helper functions; `single` gives a place only where all begin there.
// `uncounted_statement` is the statement that can't be counted, `peek_outside` the one that looks
// too far, `faulting_statement` the only one that can fault so.
// Stands on strc_work_code, whose filters know their text, and on strc_rate, which counts it.
#![tactic(auto)]

pub mod bodies;
pub mod count_places;
pub mod occurrences;
