// A program's text with its tokens.

ghost use Rattle.std.specs.Prelude.{◌≡◌, ◌-◌, ◌<◌, take, drop, true};
ghost use Rattle.strc_cli_source.specs.Headings as spec;
ghost use Rattle.strc_cli_source.specs.Headings.{heading, end_from};
ghost use Rattle.strc_cli_source.specs.Tokens.{tokens_in};

use crate::tokens::is_mark;
use strc_lex::token::{Punctuation, Token};
use strc_lex_names::place::Span;

/// A program's text.
#[derive(Clone, Copy)]
pub struct Source<'a> {
    pub text: &'a [u8],
    pub tokens: &'a [Token],
    /// The main stream that is asked for.
    pub main: Option<&'a str>,
}

impl<'a> Source<'a> {
    /// The bytes of a place.
    pub fn bytes(self, place: Span) -> &'a [u8]
        ensures { result.now ≡ take (place.end - place.start)
            (drop place.start self.entry.text.now) }
    {
        let start = place.start.min(self.text.len());
        let rest = &self.text[start..];
        &rest[..place.end.saturating_sub(place.start).min(rest.len())]
    }

    /// What is marked of a statement or a name: a statement up to its first block, or else with its
    /// first semicolon outside of brackets.
    pub fn heading(self, place: Span) -> Span
        ensures { result ≡ heading place self.entry.tokens.now }
    {
        Span {
            start: place.start,
            end: heading_end(self.tokens, place),
        }
    }
}

/// Where the heading ends of what is at a place.
fn heading_end(tokens: &[Token], place: Span) -> usize
    ensures { result ≡ end_from true place.start 0 (tokens_in place tokens.now) }
{
    let mut brackets: usize = 0;
    let mut end = place.start;
    let mut is_first = true;
    for token in tokens {
        if token.span.start < place.start {
            continue;
        }
        if token.span.end > place.end || begins_block(is_first, token) {
            return end;
        }
        if ends_statement(brackets, token) {
            return token.span.end;
        }
        end = token.span.end;
        brackets = open_after(brackets, token);
        is_first = false;
    }
    end
}

/// Whether a token opens the block of a statement: one that is a block itself opens with its first.
fn begins_block(is_first: bool, token: &Token) -> bool
    ensures { result ≡ spec.begins_block is_first token.now.kind }
{
    !is_first && is_mark(token, Punctuation::OpenBrace)
}

/// Whether a token is a semicolon outside of brackets, so many being open.
fn ends_statement(brackets: usize, token: &Token) -> bool
    ensures { result ≡ spec.ends_statement brackets token.now.kind }
{
    brackets == 0 && is_mark(token, Punctuation::Semicolon)
}

/// How many round brackets are open after a token, of those that were before it.
fn open_after(brackets: usize, token: &Token) -> usize
    requires { brackets < usize.MAX }
    ensures { result ≡ spec.open_after brackets token.now.kind }
{
    if is_mark(token, Punctuation::OpenParen) {
        brackets + 1
    } else if is_mark(token, Punctuation::CloseParen) {
        brackets.saturating_sub(1)
    } else {
        brackets
    }
}
