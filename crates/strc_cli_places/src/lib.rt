// Takes why a text is refused, or how its run faulted, and what is known of it: stream and graph.
// Gives the part of the text that it is about: a statement, a rate, a name, an operator.
// The theorems to rely on: `place_of_refusal` marks what `MarksRefusal` says of each kind: an
// undeclared name, the name of a main stream that is asked for, of a node at a channel, a feedback
// loop whose nodes wait, a rate that breaks a rule and a stream that lacks a part where the text
// spells them, unless no token does; of a statement that is refused its heading, and of one that
// faults the one operator that can (`faulting_part`). Which statement that is says
// `recursive_statement` of one that adds its own stream, `faulting_start` of the only one that can
// fault at a start, and `statement_of` of a node's; of other refusals it is the site's. That the
// token marked of a text that is nested too deep is the one where it gets so is tested. `pair_of`
// gives the first two nodes that take the input, that write to one file, or that no channels join.
// Stands on strc_cli_statements, which finds the statement that faults, on strc_cli_counts, which
// finds the channel that makes counts too large, on strc_cli_source, which knows the text's tokens
// and the stream's nodes, on strc_run_refusal, whose refusals these are, on strc_elab_statements,
// which says what can be the main stream, on strc_elab_stream, strc_elab_graph and strc_work_code,
// whose filters know their text, on strc_rate, which counts it, and on strc_parse, which reads the
// text's own tree.
#![tactic(auto)]

pub mod composites;
pub mod depth;
pub mod known;
pub mod origins;
pub mod pairs;
pub mod places;
pub mod rate_places;
pub mod recursion;
pub mod starts;
pub mod trapped;
