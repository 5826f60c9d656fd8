// What may be a mistake, and where it is written.

use strc_lex_names::place::Span;

/// What may be a mistake.
#[derive(Clone, Copy)]
pub(crate) enum Doubt {
    /// A declared stream is added nowhere, so that nothing of it is checked.
    NeverAdded,
    /// What an operator of constants comes to without wrapping, and with it.
    Wraps(i64, i32),
    /// A shift to the right may be of a negative number, whose sign it keeps; by how many bits,
    /// where that is known.
    KeepsSign(Option<i32>),
    /// A statement computes a value, and nothing else.
    NoEffect,
    /// Nothing is done where a condition is true.
    EmptyBranch,
    /// A helper function that gives a value may end without `return`.
    NoReturn,
}

/// A part of a text that may be a mistake.
#[derive(Clone, Copy)]
pub(crate) struct Finding {
    /// The statement or the name, where it is known.
    pub(crate) place: Option<Span>,
    pub(crate) doubt: Doubt,
}
