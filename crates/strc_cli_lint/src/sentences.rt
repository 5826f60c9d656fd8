// What a person reads of a part of a text that may be a mistake.

use crate::finding::{Doubt, Finding};
use std::alloc::Global;
use strc_cli_diagnostics::message::{Message, MessageKind};
use strc_cli_source::nodes::{NamedGraph, push_node};
use strc_cli_source::source::Source;
use strc_lex_names::memory::NoMemory;
use strc_lex_names::place::Span;

/// The message of a part of a text.
pub(crate) fn finding_message(
    alloc: Global,
    source: Source<'_>,
    finding: Finding,
) -> Result<Message, NoMemory> {
    let mut message = Message::new(alloc);
    match finding.doubt {
        Doubt::NeverAdded => message.add(
            b"this stream is added nowhere: nothing of it is checked",
        )?,
        Doubt::Wraps(exact, wrapped) => push_wrapping(alloc, &mut message, exact, wrapped)?,
        Doubt::KeepsSign(by) => {
            message.add(b"`>>` keeps the sign of a negative number")?;
            push_mask(&mut message, by)?;
        }
        Doubt::NoEffect => message.add(b"this computes a value that nothing takes")?,
        Doubt::EmptyBranch => message.add(b"the `;` ends this `if`: nothing is done by it")?,
        Doubt::NoReturn => message.add(
            b"this helper function may end without `return`: it gives 0 or false then",
        )?,
    }
    Ok(message.about(MessageKind::Warning, marked_place(source, finding)))
}

/// What is marked: a name, or a statement up to its first block.
fn marked_place(source: Source<'_>, finding: Finding) -> Option<Span> {
    match (finding.doubt, finding.place) {
        (Doubt::NeverAdded | Doubt::NoReturn, place) => place,
        (_, Some(place)) => Some(source.heading(place)),
        (_, None) => None,
    }
}

/// How zeros are shifted in, by so many bits where that is known.
fn push_mask(message: &mut Message, by: Option<i32>) -> Result<(), NoMemory> {
    let bits = match by {
        Some(by) if 0 < by && by < 32 => by as u32,
        _ => 8,
    };
    message.hint()?;
    message.add(
        b"it rounds down, as fixed point does; to shift zeros in, take the bits that stay: `x >> ",
    )?;
    message.number(u64::from(bits))?;
    message.add(b" & ")?;
    message.number(u64::from(u32::MAX >> bits))?;
    Ok(message.add(b"`")?)
}

/// What operators of constants come to, and what is left of it.
fn push_wrapping(
    alloc: Global,
    message: &mut Message,
    exact: i64,
    wrapped: i32,
) -> Result<(), NoMemory> {
    let sentence = format!(in alloc; "constants come to {exact} here, which wraps to {wrapped}")?;
    Ok(message.add(sentence.as_bytes())?)
}

/// The message of a node on which no output depends.
pub(crate) fn node_message(
    alloc: Global,
    named: NamedGraph<'_>,
    node: usize,
) -> Result<Message, NoMemory> {
    let mut message = Message::new(alloc);
    message.add(b"no output depends on ")?;
    push_node(&mut message, Some(named), node)?;
    Ok(message.about(MessageKind::Warning, None))
}

/// How many more there are.
pub(crate) fn more_message(alloc: Global, more: usize) -> Result<Message, NoMemory> {
    let mut message = Message::new(alloc);
    message.add(b"and ")?;
    message.number(more as u64)?;
    message.add(b" more warnings")?;
    Ok(message)
}

/// A remark on the whole program.
pub(crate) fn remark_message(alloc: Global, remark: &[u8]) -> Result<Message, NoMemory> {
    let mut message = Message::new(alloc);
    message.add(remark)?;
    Ok(message.about(MessageKind::Note, None))
}
