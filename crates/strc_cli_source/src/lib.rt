// Takes a program's text with its tokens, and the stream and the graph that it means.
// Gives what messages are built of: places by what is written there, the operator that faults,
// names that are near to one; and nodes in preorder with the statements they come from, their
// names, rates and stuck loops.
// The theorems to rely on: `heading`: what is marked of a statement are its tokens up to its first
// block or semicolon, and of one that faults its only operator that can (`faulting_part`);
// `preorder_of` gives a stream's nodes in preorder, each with the statement that adds it, and the
// pairs of them that channels join, and `first_apart` the first node that no channels join with
// node 0.
// Stands on strc_cli_diagnostics, whose messages it writes in, on strc_lex, whose tokens these are,
// on strc_work_meaning, whose faults, on strc_elab_stream and strc_elab_graph, whose nodes, and on
// strsim.
#![tactic(auto)]

pub mod channel_rates;
pub mod nearest;
pub mod nodes;
pub mod operators;
pub mod preorder;
pub mod source;
pub mod spelling;
pub mod stuck;
pub mod tokens;
