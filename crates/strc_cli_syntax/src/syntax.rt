// What a person reads of a token that can't stand where it is.

ghost use Rattle.std.specs.Prelude.{◌≡◌, OnOk};
ghost use Rattle.strc_cli_diagnostics.specs.Messages.{with_more};
ghost use Rattle.strc_cli_syntax.specs.Words.{GoesOn, syntax_words};

use crate::expected_tokens::{Expected, expected_after};
use std::alloc::Global;
use strc_cli_diagnostics::message::Message;
use strc_cli_source::source::Source;
use strc_lex_names::memory::NoMemory;
use strc_lex_names::place::Span;

/// What is where it can't be, and what could be there; past the last token, that the text ends too
/// soon.
#[tactic(auto, using(crate::proofs::Words::goes_nowhere))]
pub fn push_syntax(
    alloc: Global,
    message: &mut Message,
    source: Source<'_>,
    token: usize,
) -> Result<(), NoMemory>
    // The sentence begins with the token.
    ensures { OnOk result (GoesOn (with_more message.old
        (syntax_words source.entry.text.now source.entry.tokens.now token)) message.new) }
{
    push_unexpected(message, source, token)?;
    let end = match source.tokens.get(token) {
        Some(found) => found.span.start,
        None => source.text.len(),
    };
    let beginning = source.bytes(Span { start: 0, end });
    match expected_after(alloc, beginning, token)? {
        Some(expected) => push_expected(message, &expected),
        None => Ok(()),
    }
}

/// What is where it can't be.
fn push_unexpected(message: &mut Message, source: Source<'_>, token: usize) -> Result<(), NoMemory>
    ensures { OnOk result (message.new ≡ with_more message.old
        (syntax_words source.entry.text.now source.entry.tokens.now token)) }
{
    match source.tokens.get(token) {
        Some(found) => {
            message.quoted(source.bytes(found.span))?;
            Ok(message.add(b" can't stand here")?)
        }
        None => Ok(message.add(b"the text ends too soon")?),
    }
}

/// What could be there: kinds of things first, then tokens.
#[tactic(auto, using(crate::proofs::Words::goes_nowhere))]
fn push_expected(message: &mut Message, expected: &Expected) -> Result<(), NoMemory>
    ensures { OnOk result (GoesOn message.old message.new) }
{
    let mut said = false;
    for (is, words) in [
        (expected.statement, "a statement"),
        (expected.expression && !expected.statement, "an expression"),
        (expected.name && !expected.expression, "a name"),
        (expected.operator, "an operator"),
    ] {
        if is {
            message.add(separator(said))?;
            message.add(words.as_bytes())?;
            said = true;
        }
    }
    for token in &expected.tokens {
        message.add(separator(said))?;
        message.quoted(token)?;
        said = true;
    }
    Ok(())
}

/// What is written before one of several things.
fn separator(said: bool) -> &'static [u8] {
    if said { b", " } else { b"; expected " }
}
