// Hints on a token that can't stand where it is, by what people type who know C or other forms of
// StreamIt.

ghost use Rattle.std.specs.Prelude.{OnOk};
ghost use Rattle.strc_cli_syntax.specs.Words.{GoesOnWithHint};

use crate::foreign_words::{MESSAGES, STRUCTURES, foreign_hint};
use crate::hint_words::push_words;
use crate::open_braces::{is_outside, lacks_close_brace, push_open_brace};
use crate::operators::is_bitwise;
use strc_cli_diagnostics::message::Message;
use strc_cli_source::source::Source;
use strc_cli_source::tokens::{is_keyword, is_mark};
use strc_lex::token::{Keyword, Punctuation, Token, TokenKind};
use strc_lex_names::memory::NoMemory;

/// A hint on a token, by its number, that can't stand where it is; past the last one, on a text
/// that ends too soon.
pub fn push_syntax_hint(
    message: &mut Message,
    source: Source<'_>,
    number: usize,
) -> Result<(), NoMemory>
    ensures { OnOk result (GoesOnWithHint message.old message.new) }
{
    let Some(found) = source.tokens.get(number) else {
        return push_open_brace(message, source, number);
    };
    let hint = token_hint(source, number, found);
    if !hint.is_empty() {
        return push_words(message, hint);
    }
    if !can_follow_a_stream(found) {
        return Ok(());
    }
    if lacks_close_brace(source) {
        return push_open_brace(message, source, number);
    }
    push_words(message, part_hint(source, number, found))
}

/// How the beginning of a filter's part or of a stream's head can be mended where every block has
/// an end; nothing where that isn't known.
fn part_hint(source: Source<'_>, number: usize, found: &Token) -> &'static [u8] {
    match before(source, number) {
        Some(token) if is_part(found) && (is_type(token) || is_keyword(token, Keyword::Void)) => {
            b"`init`, `prework` and `work` have no type"
        }
        Some(token) if ends_value(token) && is_part(found) => {
            b"a `;` may be missing at the end of the statement before it"
        }
        _ => b"",
    }
}

/// Whether a token ends an expression.
fn ends_value(token: &Token) -> bool {
    match token.kind {
        TokenKind::Number(_) | TokenKind::Name(_) => true,
        _ => is_mark(token, Punctuation::CloseParen) || is_mark(token, Punctuation::CloseBracket),
    }
}

/// Whether a token begins a part of a filter.
fn is_part(token: &Token) -> bool {
    is_keyword(token, Keyword::Init)
        || is_keyword(token, Keyword::Prework)
        || is_keyword(token, Keyword::Work)
}

/// Whether a token begins a part of a filter, or stands in the head of a stream: where it is found
/// in a block, the block has no end.
fn can_follow_a_stream(found: &Token) -> bool {
    match found.kind {
        TokenKind::Keyword(
            Keyword::Filter
            | Keyword::Pipeline
            | Keyword::Splitjoin
            | Keyword::Feedbackloop
            | Keyword::Init
            | Keyword::Prework
            | Keyword::Work
            | Keyword::Void,
        )
        | TokenKind::Punctuation(Punctuation::Arrow) => true,
        _ => false,
    }
}

/// How a token can be mended that can't stand where it is; nothing where that isn't known.
fn token_hint(source: Source<'_>, number: usize, found: &Token) -> &'static [u8] {
    match &found.kind {
        TokenKind::Punctuation(mark) => mark_hint(source, number, *mark),
        TokenKind::Keyword(keyword) => keyword_hint(source, number, *keyword),
        TokenKind::Name(name) => word_hint(source, number, name.as_bytes()),
        TokenKind::StringLiteral(_) => or_else(before_hint(source, number), STRINGS),
        TokenKind::Number(_) => before_hint(source, number),
    }
}

/// How a name can be mended: it is a foreign word, or comes after one, or is that of a global.
fn word_hint(source: Source<'_>, number: usize, word: &[u8]) -> &'static [u8] {
    if has_type_before(source, number) && is_outside(source, number) {
        if follows_arrow(source, number) {
            return b"";
        }
        return b"numbers and functions stand in streams; or the stream above has a `}` too many";
    }
    or_else(before_hint(source, number), foreign_hint(word))
}

/// What stands for the word before a token, or before its bracket, where that one is foreign.
fn before_hint(source: Source<'_>, number: usize) -> &'static [u8] {
    let end = if follows(source, number, Punctuation::OpenParen) {
        number.saturating_sub(1)
    } else {
        number
    };
    match before(source, end) {
        Some(token) => match &token.kind {
            TokenKind::Name(name) => foreign_hint(name.as_bytes()),
            _ => b"",
        },
        None => b"",
    }
}

/// How a keyword can be mended.
fn keyword_hint(source: Source<'_>, number: usize, keyword: Keyword) -> &'static [u8] {
    if is_name_of_a_number(source, number) {
        return b"this word is one of the language's own, and names nothing else";
    }
    match keyword {
        Keyword::Break => b"a loop ends by its condition",
        Keyword::Continue => b"an `if` round the rest of the body stands for it",
        Keyword::Do => b"`while` stands for it",
        Keyword::Return => b"a filter gives an item by `push`",
        Keyword::Float | Keyword::Bit => b"items are `int`; a variable may also be `boolean`",
        Keyword::Complex | Keyword::Struct => STRUCTURES.as_bytes(),
        Keyword::Portal => MESSAGES.as_bytes(),
        Keyword::Identity | Keyword::FileReader | Keyword::FileWriter => {
            or_else(before_hint(source, number), b"a stream is added by `add`")
        }
        Keyword::Int if follows(source, number, Punctuation::OpenParen) => {
            or_else(
                before_hint(source, number),
                b"all numbers are `int`, and nothing is cast",
            )
        }
        Keyword::Duplicate => b"a join takes items in turn, by `roundrobin`",
        Keyword::Boolean => b"parameters are `int`: 1 and 0 stand for true and false",
        _ => before_hint(source, number),
    }
}

/// Whether a keyword stands where a name is declared: behind the type of a number, in no type of a
/// stream.
fn is_name_of_a_number(source: Source<'_>, number: usize) -> bool {
    match (before(source, number), source.tokens.get(number)) {
        (Some(token), Some(found)) => {
            is_type(token) && !follows_arrow(source, number) && !can_follow_a_stream(found)
        }
        _ => false,
    }
}

/// What stands for the foreign word before the parentheses that end before a token.
fn called_hint(source: Source<'_>, number: usize) -> &'static [u8] {
    let mut open: usize = 0;
    for place in (0..number.min(source.tokens.len())).rev() {
        let token = &source.tokens[place];
        if is_mark(token, Punctuation::CloseParen) {
            open = open.saturating_add(1);
        } else if is_mark(token, Punctuation::OpenParen) {
            open = open.saturating_sub(1);
        }
        if open == 0 {
            return before_hint(source, place);
        }
    }
    b""
}

/// Whether the number before a token is a rate.
fn is_rated(source: Source<'_>, number: usize) -> bool {
    match before(source, number.saturating_sub(1)) {
        Some(token) => is_rate(token),
        None => false,
    }
}

/// Whether the type before a token follows an arrow.
fn follows_arrow(source: Source<'_>, number: usize) -> bool {
    follows(source, number.saturating_sub(1), Punctuation::Arrow)
}

/// A hint, or where there is none another one.
fn or_else(hint: &'static [u8], other: &'static [u8]) -> &'static [u8] {
    if hint.is_empty() { other } else { hint }
}

/// How a punctuation mark can be mended.
fn mark_hint(source: Source<'_>, number: usize, mark: Punctuation) -> &'static [u8] {
    match mark {
        Punctuation::Assign => assign_hint(source, number),
        Punctuation::OpenBracket => bracket_hint(source, number),
        Punctuation::Star => star_hint(source, number),
        Punctuation::OpenBrace if follows(source, number, Punctuation::Assign) => {
            b"the elements of an array are 0 at first: `init { a[0] = 5; a[1] = 7; }` sets them"
        }
        Punctuation::OpenBrace if follows(source, number, Punctuation::CloseParen) => {
            or_else(
                called_hint(source, number),
                b"`if`, `while` and `for` have a block",
            )
        }
        Punctuation::Comma if is_rated(source, number) => b"rates stand without commas",
        Punctuation::Comma if is_in_for(source, number) => {
            b"a `for` has one step: another one is a statement of its own"
        }
        Punctuation::CloseParen if names_no_file(source, number) => {
            b"the file's name stands there, in quotes"
        }
        Punctuation::CloseBrace if is_outside(source, number) => {
            b"no `{` is open here: there is a `}` too many before it"
        }
        Punctuation::Greater if follows(source, number, Punctuation::ShiftRight) => {
            b"`>>` keeps the sign: `(x >> n) & mask` takes it away"
        }
        Punctuation::Semicolon if follows(source, number, Punctuation::CloseBrace) => {
            b"no `;` stands after the `}` of a block"
        }
        Punctuation::Colon => b"`for (int i = 0; i < n; i++)` counts up to n",
        _ => b"",
    }
}

/// Whether a token is in the head of a `for`.
fn is_in_for(source: Source<'_>, number: usize) -> bool {
    let earlier = &source.tokens[..number.min(source.tokens.len())];
    match earlier
        .iter()
        .rev()
        .find(|it| is_keyword(it, Keyword::For) || ends_block(it))
    {
        Some(last) => is_keyword(last, Keyword::For),
        None => false,
    }
}

/// Whether a token begins or ends a block.
fn ends_block(token: &Token) -> bool {
    is_mark(token, Punctuation::OpenBrace) || is_mark(token, Punctuation::CloseBrace)
}

/// Whether a token ends the parentheses of a reader or writer with nothing in them.
fn names_no_file(source: Source<'_>, number: usize) -> bool {
    follows(source, number, Punctuation::OpenParen)
        && follows(source, number.saturating_sub(1), Punctuation::Greater)
}

/// How an assignment can be mended.
fn assign_hint(source: Source<'_>, number: usize) -> &'static [u8] {
    match before(source, number) {
        Some(token) if is_uncombined(token) => {
            b"only `+=`, `-=`, `*=`, `/=` and `%=` compute: `x = x << n` stands for `x <<= n`, \
                and `x = x | n` for `x |= n`"
        }
        Some(token) if is_rate(token) => b"a rate has no `=`: `work push 1 pop 1`",
        _ if assigns_before(source, number) => {
            b"an assignment has no value: each is a statement of its own"
        }
        _ if is_before(source, number, Punctuation::Greater) => b"`>=` stands for at least",
        _ => b"two values are compared by `==`, and an assignment has no value",
    }
}

/// Whether a token is an operator that doesn't go with `=`.
fn is_uncombined(token: &Token) -> bool {
    is_bitwise(token)
        || is_mark(token, Punctuation::ShiftLeft)
        || is_mark(token, Punctuation::ShiftRight)
}

/// Whether the statement of a token has an `=` before it.
fn assigns_before(source: Source<'_>, number: usize) -> bool {
    let earlier = &source.tokens[..number.min(source.tokens.len())];
    match earlier
        .iter()
        .rev()
        .find(|it| is_mark(it, Punctuation::Assign) || ends_part(it))
    {
        Some(last) => is_mark(last, Punctuation::Assign),
        None => false,
    }
}

/// Whether a token ends a statement or begins a block.
fn ends_part(token: &Token) -> bool {
    is_mark(token, Punctuation::Semicolon) || ends_block(token)
}

/// How the type of an array can be mended.
fn bracket_hint(source: Source<'_>, number: usize) -> &'static [u8] {
    match before(source, number) {
        Some(token) if is_rate(token) => RATES,
        Some(token) if is_type(token) => {
            b"parameters are numbers: arrays are fields, which init fills and helper functions see"
        }
        Some(token) if is_mark(token, Punctuation::CloseBracket) => {
            b"arrays have one dimension: `a[i * n + j]`"
        }
        _ if has_type_before(source, number.saturating_sub(1)) => {
            b"an array is declared as in `int[8] a`, in a filter; parameters are numbers"
        }
        _ => b"",
    }
}

/// How a `*` can be mended.
fn star_hint(source: Source<'_>, number: usize) -> &'static [u8] {
    match before(source, number) {
        Some(token) if is_rate(token) => RATES,
        Some(token) if is_type(token) =>
            b"there are no pointers: an array has its places by number",
        Some(token) if is_mark(token, Punctuation::Star) => b"powers are computed by a loop",
        _ => b"",
    }
}

const STRINGS: &[u8] =
    b"print and println write numbers; strings name the files of readers and writers";

const RATES: &[u8] = b"rates are known before the run: one number each, and no range";

/// Whether a token is the name of a rate.
fn is_rate(token: &Token) -> bool {
    is_keyword(token, Keyword::Push)
        || is_keyword(token, Keyword::Pop)
        || is_keyword(token, Keyword::Peek)
}

/// Whether a token is the name of a type.
fn is_type(token: &Token) -> bool {
    is_keyword(token, Keyword::Int) || is_keyword(token, Keyword::Boolean)
}

/// Whether a type is before a token.
fn has_type_before(source: Source<'_>, number: usize) -> bool {
    match before(source, number) {
        Some(token) => is_type(token) || is_keyword(token, Keyword::Void),
        None => false,
    }
}

/// Whether the token before one is this mark.
fn follows(source: Source<'_>, number: usize, mark: Punctuation) -> bool {
    match before(source, number) {
        Some(token) => is_mark(token, mark),
        None => false,
    }
}

/// Whether the token behind one is this mark.
fn is_before(source: Source<'_>, number: usize, mark: Punctuation) -> bool {
    match source.tokens.get(number.saturating_add(1)) {
        Some(token) => is_mark(token, mark),
        None => false,
    }
}

/// The token before one.
fn before(source: Source<'_>, number: usize) -> Option<&Token> {
    source.tokens.get(number.checked_sub(1)?)
}
