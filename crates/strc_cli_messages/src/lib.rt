// Takes a program's text, and why it is refused or where a firing faulted.
// Gives what a person reads of it: the part of the text that it is about, one sentence, and where
// it helps a hint.
// The theorems to rely on: `refusal_message`, `fault_message`: a message is about the part that
// breaks the rule, or that faults, by the text's own tree, stream and graph, and says in that
// rule's or that fault's own words what it is.
// Stands on strc_cli_places, which finds the place, on strc_cli_source, which builds messages and
// tells of the nodes of a stream, on strc_run_refusal, whose refusals and rounds it tells of, on
// strc_elab_statements, which says what can be the main stream, and on strc_work_rules, whose rules
// are broken.
#![tactic(auto)]

pub mod fault;
mod hints;
mod marked_tokens;
mod mismatches;
mod pairs;
pub mod refusal;
mod sentences;
mod site;
