// What is to be elaborated, and what comes of it.

use indexmap::IndexMap;
use std::alloc::Global;
use strc_elab_stream::stream::Stream;
use strc_lex_names::name::{Name, StringLiteral};
use strc_parse_tree::tree::{CompositeKind, Decl, ItemType, Member, Stmt, StreamType};
use strc_work_meaning::constants::Constants;

/// The text of a stream.
#[derive(Clone, Copy)]
pub(crate) enum Text<'a> {
    Filter(Option<&'a Name>, StreamType, &'a [Member]),
    Composite(Option<StreamType>, CompositeKind, &'a [Stmt]),
    Identity,
    /// What is between the brackets.
    Reader(&'a StringLiteral),
    Writer(&'a StringLiteral),
}

/// How many iterations all loops have made, and how many filters there are, so far.
#[derive(Clone, Copy)]
pub(crate) struct Totals {
    pub(crate) turns: u32,
    pub(crate) filters: u32,
}

/// A text to be elaborated: the program that it is in, how many levels it may have, the number
/// of the declaration that holds it, the constants that it sees, and the totals before it.
#[derive(Clone, Copy)]
pub(crate) struct Task<'a> {
    pub(crate) alloc: Global,
    pub(crate) declarations: &'a [Decl],
    pub(crate) numbers: &'a IndexMap<&'a [u8], usize>,
    pub(crate) levels: u32,
    pub(crate) declaration: usize,
    pub(crate) constants: &'a Constants,
    pub(crate) text: Text<'a>,
    pub(crate) totals: Totals,
}

/// What the elaboration of a stream gives: its instances, what it takes and gives, and the totals
/// after it.
#[derive(Drop)]
pub(crate) struct Elaborated {
    pub(crate) stream: Stream,
    pub(crate) types: StreamType,
    pub(crate) totals: Totals,
}
