// The C function that code is written in.

use strc_lex_names::scope::Scope;

/// A function of a node: how many of the slots are fields, for each slot in an array the one where
/// that begins, whether it is a helper function, what it may pop, look at and push, the number of
/// its tape, and the names of the helper functions that it may call, the first one innermost; and
/// whether it tests what it pops, looks at and pushes.
#[derive(Drop)]
pub struct Function {
    pub node: u32,
    pub fields: u32,
    pub arrays: Vec<Option<u32>>,
    pub in_helper: bool,
    pub tests: bool,
    pub pops: u32,
    pub peek: u32,
    pub pushes: u32,
    pub tape: u32,
    pub helpers: Scope,
}
