// The `{` that is still open where a text can't go on.

ghost use Rattle.std.specs.Prelude.{OnOk};
ghost use Rattle.strc_cli_syntax.specs.Words.{GoesOnWithHint};

use crate::place_words::push_place;
use strc_cli_diagnostics::message::Message;
use strc_cli_source::source::Source;
use strc_cli_source::tokens::is_mark;
use strc_lex::token::{Punctuation, Span, Token};
use strc_lex_names::memory::NoMemory;

/// A hint at the innermost `{` that is open before a token, where one is.
pub(crate) fn push_open_brace(
    message: &mut Message,
    source: Source<'_>,
    number: usize,
) -> Result<(), NoMemory>
    ensures { OnOk result (GoesOnWithHint message.old message.new) }
{
    match open_brace(source, number) {
        Some(place) => {
            message.hint()?;
            message.add(b"a `}` may be missing: a `{` is still open")?;
            push_place(message, source.text, Some(place))
        }
        None => Ok(()),
    }
}

/// Whether a text has more `{` than `}`.
pub(crate) fn lacks_close_brace(source: Source<'_>) -> bool {
    let opened = source
        .tokens
        .iter()
        .filter(|it| is_mark(it, Punctuation::OpenBrace));
    let closed = source
        .tokens
        .iter()
        .filter(|it| is_mark(it, Punctuation::CloseBrace));
    opened.count() > closed.count()
}

/// Whether no `{` is open before a token.
pub(crate) fn is_outside(source: Source<'_>, number: usize) -> bool {
    open_brace(source, number).is_none()
}

/// The innermost `{` that is open before a token.
fn open_brace(source: Source<'_>, number: usize) -> Option<Span> {
    let mut closed: usize = 0;
    for token in source.tokens[..number.min(source.tokens.len())]
        .iter()
        .rev()
    {
        if closed == 0 && is_mark(token, Punctuation::OpenBrace) {
            return Some(token.span);
        }
        closed = closed_before(closed, token);
    }
    None
}

/// How many `}` wait for their `{`, before a token after which so many do.
fn closed_before(closed: usize, token: &Token) -> usize {
    if is_mark(token, Punctuation::CloseBrace) {
        closed.saturating_add(1)
    } else if is_mark(token, Punctuation::OpenBrace) {
        closed.saturating_sub(1)
    } else {
        closed
    }
}
