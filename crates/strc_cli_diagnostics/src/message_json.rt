// What a program reads of a message: a line of JSON.

ghost use Rattle.std.specs.Prelude.{◌≡◌, ◌∷◌, [], decimal, option_map, IfOk, OnOk};
ghost use Rattle.std.specs.Str.Lossy.{utf8_lossy};
ghost use Rattle.json.specs.Token.{key, null, number, string};
ghost use Rattle.strc_cli_diagnostics.specs.Diagnostics as spec;
ghost use Rattle.strc_cli_diagnostics.specs.Diagnostics.{AddsTokens, IsMessageJson, PlacesTokens};

use crate::message::Message;
use crate::message_text::subject;
use crate::place::place_of;
use json::Writer;
use std::alloc::{AllocError, Global};
use strc_lex_names::place::Span;

/// How grave it is, what a message says.
#[derive(Clone, Copy)]
pub enum Severity {
    /// A program is refused.
    Error,
    /// Something in a program may be a mistake.
    Warning,
}

/// What a program reads of a message on a program's text, which is in a file of this name: an
/// object of JSON, and a line feed. Bytes that aren't UTF-8 are replaced.
///
/// `code` is that of the refusal, or of another reason for the message.
pub fn message_json(
    alloc: Global,
    file: &str,
    text: &[u8],
    severity: Severity,
    code: &[u8],
    message: &Message,
) -> Result<Vec<u8>, AllocError>
    ensures { IfOk result (λ written.
        IsMessageJson file.now text.now severity code.now message.now written.items) }
{
    let mut writer = Writer::new(Vec::new(alloc));
    writer.begin_object()?;
    add_text(&mut writer, alloc, "file", subject(file, message.kind()))?;
    add_place(&mut writer, text, message.place())?;
    add_text(&mut writer, alloc, "severity", severity_word(severity))?;
    add_text(&mut writer, alloc, "code", code)?;
    add_text(&mut writer, alloc, "message", message.sentence())?;
    add_hint(&mut writer, alloc, message.advice())?;
    writer.end_object()?;
    let mut written = writer.into_inner();
    written.extend_from_slice(b"\n")?;
    Ok(written)
}

/// The word of a severity.
fn severity_word(severity: Severity) -> &'static [u8]
    ensures { result.now ≡ spec.severity_word severity }
{
    match severity {
        Severity::Error => b"error",
        Severity::Warning => b"warning",
    }
}

/// A member with a text.
fn add_text(writer: &mut Writer, alloc: Global, name: &str, bytes: &[u8]) -> Result<(), AllocError>
    ensures { OnOk result (AddsTokens (key name.now ∷ string (utf8_lossy bytes.now) ∷ [])
        writer.old writer.new) }
{
    writer.key(name)?;
    writer.string(&String::from_utf8_lossy(alloc, bytes)?)
}

/// The member with a hint, or with none.
fn add_hint(writer: &mut Writer, alloc: Global, hint: Option<&[u8]>) -> Result<(), AllocError>
    ensures { OnOk result (AddsTokens
        (spec.hint_tokens (option_map (λ words. words.now) hint.entry)) writer.old writer.new) }
{
    match hint {
        Some(words) => add_text(writer, alloc, "hint", words),
        None => add_null(writer, "hint"),
    }
}

/// A member with nothing.
fn add_null(writer: &mut Writer, name: &str) -> Result<(), AllocError>
    ensures { OnOk result (AddsTokens (key name.now ∷ null ∷ []) writer.old writer.new) }
{
    writer.key(name)?;
    writer.null()
}

/// A member with a number.
fn add_number(writer: &mut Writer, name: &str, value: usize) -> Result<(), AllocError>
    ensures { OnOk result (AddsTokens (key name.now ∷ number (decimal value) ∷ [])
        writer.old writer.new) }
{
    writer.key(name)?;
    writer.u64(value as u64)
}

/// The members that say where in a text a part of it is, where there is one.
fn add_place(writer: &mut Writer, text: &[u8], part: Option<Span>) -> Result<(), AllocError>
    ensures { OnOk result (PlacesTokens text.now part writer.old writer.new) }
{
    match part {
        Some(part) => {
            let place = place_of(text, part.start);
            add_number(writer, "start", part.start)?;
            add_number(writer, "end", part.end)?;
            add_number(writer, "line", place.line)?;
            add_number(writer, "column", place.column)
        }
        None => {
            add_null(writer, "start")?;
            add_null(writer, "end")?;
            add_null(writer, "line")?;
            add_null(writer, "column")
        }
    }
}
