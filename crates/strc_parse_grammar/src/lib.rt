// Takes the tokens of a program's text from some place on.
// Gives what tokens spell (the grammar, its trees' shapes and heights), and the rules for what has
// no statement in it: expressions, variables, arguments, parameters and types of streams.
// The theorems to rely on: `one_tree`: two programs never share a spelling; each rule reads just
// what the rule of its name in the grammar does, and gives the tree, its height and the tokens past
// it.
// The definition to believe is specs/Grammar; specs/Reading and specs/Streams say how a rule reads,
// and the proofs that they agree.
// Stands on strc_parse_tree, whose trees it makes, and on strc_lex, whose tokens it reads.
#![tactic(auto)]

pub mod argument;
mod error;
pub mod expression;
mod height;
mod laws;
pub mod lookahead;
mod operand;
pub mod operator;
pub mod parameter;
pub mod part;
pub mod place;
pub mod rule_result;
pub mod sequence;
pub mod stream_type;
pub mod variable;

pub use error::{Fault, ParseError, ReadError};
pub use height::HEIGHT_LIMIT;
pub use laws::one_tree;
