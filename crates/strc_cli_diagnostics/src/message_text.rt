// The text of a message: the place in the file, its sentence, the source line with a mark, and
// where it helps its hint.

ghost use Rattle.std.specs.Prelude.{◌≡◌, ◌++◌, codes, decimal, map, IfOk, OnOk};
ghost use Rattle.std.specs.Option.{option_map};
ghost use Rattle.strc_cli_diagnostics.specs.Excerpts as spec;
ghost use Rattle.strc_cli_diagnostics.specs.Messages as text;
ghost use Rattle.strc_cli_diagnostics.specs.Messages.{IsHead, IsMessageText, hint_text};

use crate::message::{Message, MessageKind};
use crate::place::{line_before, line_from, place_of};
use itoa::Buffer;
use std::alloc::{AllocError, Global};
use strc_lex_names::place::Span;

/// How many bytes of a source line are shown before its mark, and how many from it on.
const SHOWN: usize = 100;

/// What a person reads of a message on a program's text, which is in a file of this name.
pub fn message_text(
    alloc: Global,
    file: &str,
    text: &[u8],
    message: &Message,
) -> Result<Vec<u8>, AllocError>
    ensures { IfOk result (λ written.
        IsMessageText file.now text.now message.now written.items) }
{
    let mut written = head_of(alloc, subject(file, message.kind()), text, message.place())?;
    written.extend_from_slice(label(message.kind()))?;
    written.extend_from_slice(message.sentence())?;
    push_excerpt(&mut written, alloc, text, message.place())?;
    push_hint(&mut written, message.advice())?;
    written.extend_from_slice(b"\n")?;
    Ok(written)
}

/// What a message is about, as its head says.
pub(crate) fn subject(file: &str, kind: MessageKind) -> &[u8]
    ensures { result.now ≡ text.subject file.now kind }
{
    match kind {
        MessageKind::Plain | MessageKind::Warning | MessageKind::Note => file.as_bytes(),
        MessageKind::Input => b"standard input",
        MessageKind::Usage => b"error",
    }
}

/// What is said before a sentence.
fn label(kind: MessageKind) -> &'static [u8]
    ensures { result.now ≡ text.label kind }
{
    match kind {
        MessageKind::Warning => b"warning: ",
        MessageKind::Note => b"note: ",
        MessageKind::Plain | MessageKind::Input | MessageKind::Usage => b"",
    }
}

/// How a text begins that is about this, at a place of a program's text where there is one.
fn head_of(
    alloc: Global,
    subject: &[u8],
    text: &[u8],
    place: Option<Span>,
) -> Result<Vec<u8>, AllocError>
    ensures { IfOk result (λ head.
        IsHead subject.now text.now (option_map (λ part. part.start) place) head.items) }
{
    let mut head = Vec::new(alloc);
    head.extend_from_slice(subject)?;
    if let Some(part) = place {
        let place = place_of(text, part.start);
        head.extend_from_slice(b":")?;
        push_number(&mut head, place.line as u64)?;
        head.extend_from_slice(b":")?;
        push_number(&mut head, place.column as u64)?;
    }
    head.extend_from_slice(b": ")?;
    Ok(head)
}

/// A number in decimal.
fn push_number(written: &mut Vec<u8>, number: u64) -> Result<(), AllocError>
    ensures { OnOk result (written.new.items ≡ written.old.items ++ decimal number) }
{
    let mut buffer = Buffer::new();
    written.extend_from_slice(buffer.format(number).as_bytes())
}

/// A hint on a line of its own, where there is one.
fn push_hint(written: &mut Vec<u8>, hint: Option<&[u8]>) -> Result<(), AllocError>
    ensures { OnOk result (written.new.items ≡ written.old.items
        ++ hint_text (option_map (λ words. words.now) hint.entry)) }
{
    if let Some(words) = hint {
        written.extend_from_slice(b"\nhint: ")?;
        written.extend_from_slice(words)?;
    }
    Ok(())
}

/// The source line of a place with a mark below it, on lines of their own, where there is a place.
fn push_excerpt(
    written: &mut Vec<u8>,
    alloc: Global,
    text: &[u8],
    place: Option<Span>,
) -> Result<(), AllocError>
    ensures { OnOk result (written.new.items ≡ written.old.items
        ++ spec.excerpt_at text.now place) }
{
    let Some(part) = place else {
        return Ok(());
    };
    let before = shown_before(line_before(text, part.start));
    let from = shown_from(line_from(text, part.start));
    let length = part.end.saturating_sub(part.start).min(from.len());
    written.extend_from_slice(b"\n    ")?;
    written.extend_from_slice(&shown(alloc, before)?)?;
    written.extend_from_slice(&shown(alloc, from)?)?;
    written.extend_from_slice(b"\n    ")?;
    written.extend_from_slice(&room(alloc, before)?)?;
    push_mark(written, alloc, length)
}

/// The last bytes of a line before a place, as many as are shown.
fn shown_before(line: &[u8]) -> &[u8]
    ensures { result.now ≡ spec.shown_before line.now }
{
    &line[line.len().saturating_sub(SHOWN)..]
}

/// The first bytes of a line from a place on, as many as are shown.
fn shown_from(line: &[u8]) -> &[u8]
    ensures { result.now ≡ spec.shown_from line.now }
{
    &line[..SHOWN.min(line.len())]
}

/// Bytes of a text as they are shown.
fn shown(alloc: Global, bytes: &[u8]) -> Result<Vec<u8>, AllocError>
    ensures { IfOk result (λ written. written.items ≡ map spec.shown bytes.now) }
{
    bytes.iter().map(|byte| shown_byte(*byte)).collect(alloc)
}

/// A byte as it is, but for those that a terminal might obey: these are question marks.
fn shown_byte(byte: u8) -> u8
    ensures { result ≡ spec.shown byte }
{
    if byte != b'\t' && (byte < 0x20 || byte == 0x7f) {
        b'?'
    } else {
        byte
    }
}

/// As much room as these bytes take.
fn room(alloc: Global, bytes: &[u8]) -> Result<Vec<u8>, AllocError>
    ensures { IfOk result (λ written. written.items ≡ spec.room bytes.now) }
{
    bytes
        .iter()
        .filter(|byte| begins_character(**byte))
        .map(|byte| room_of(*byte))
        .collect(alloc)
}

/// Whether a byte isn't inside of a character.
fn begins_character(byte: u8) -> bool
    ensures { result ≡ spec.begins_character byte }
{
    byte < 0x80 || byte >= 0xc0
}

/// A tab for a tab, and a space for another character.
fn room_of(byte: u8) -> u8
    ensures { result ≡ spec.room_of byte }
{
    if byte == b'\t' { b'\t' } else { b' ' }
}

/// A mark of this length, at least of one.
fn push_mark(written: &mut Vec<u8>, alloc: Global, length: usize) -> Result<(), AllocError>
    ensures { OnOk result (written.new.items ≡ written.old.items ++ spec.mark length) }
{
    written.extend_from_slice(b"^")?;
    written.extend_from_slice(&Vec::from_elem(alloc, b'~', length.saturating_sub(1))?)
}
