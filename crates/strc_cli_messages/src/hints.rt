// Hints on how a refusal can be mended.

ghost use Rattle.std.specs.Prelude.{OnOk};
ghost use Rattle.strc_cli_syntax.specs.Words.{GoesOn};
ghost use Rattle.strc_cli_messages.specs.Told as told;

use crate::marked_tokens::{block_has, compares_bits, compares_twice, is_in, looks_back};
use crate::mismatches::mismatch_hint;
use strc_cli_diagnostics::message::Message;
use strc_cli_places::known::Known;
use strc_cli_source::nearest::nearest_name;
use strc_cli_source::source::Source;
use strc_cli_source::spelling::begins;
use strc_cli_syntax::foreign_words::{DELAYS, is_include, push_foreign_hint};
use strc_cli_syntax::hint_words::push_words;
use strc_cli_syntax::number_hints::push_number_hint;
use strc_cli_syntax::syntax_hints::push_syntax_hint;
use strc_lex::token::{Keyword, TokenKind};
use strc_lex_names::memory::NoMemory;
use strc_lex_names::name::Name;
use strc_lex_names::place::Span;
use strc_parse_tree::tree::Decl;
use strc_run_refusal::refusal::Refusal;
use strc_work_meaning::types::ValueType;
use strc_work_rules::site::{Mismatch, Part, Site};

/// A hint, where there is one that helps, of a refusal whose message marks this place.
pub(crate) fn push_hint(
    message: &mut Message,
    known: Known<'_>,
    refusal: &Refusal,
    site: Site,
    place: Option<Span>,
) -> Result<(), NoMemory>
    ensures { OnOk result (told.KeepsSentence message.old message.new) }
{
    match refusal {
        Refusal::UnknownName { name } => push_nearest(message, known, name.as_bytes()),
        Refusal::NoMain => push_main_hint(message, known),
        Refusal::Lex { at } => push_lexical_hint(message, known.source.text, *at),
        Refusal::BadArguments { .. } => push_parameters(message, known, place),
        Refusal::Parse { token } => push_syntax_hint(message, known.source, *token),
        Refusal::TypeMismatch { .. } => match site.mismatch {
            Some(mismatch) => {
                push_words(
                    message,
                    mismatch_hint_at(known.source, mismatch, site.place),
                )
            }
            None => Ok(()),
        },
        Refusal::PeekOutside { .. } if looks_back(known.source, place) => {
            push_words(
                message,
                b"there is no look back: a field keeps what was popped",
            )
        }
        Refusal::RateUnknown { .. } if is_loop(known.source, place) => {
            push_words(
                message,
                b"a loop is counted as in `for (int i = 0; i < n; i++)`: i on the left, n known \
                    before the run, and a constant step, up or down",
            )
        }
        refusal => push_words(message, hint_of(refusal)),
    }
}

/// Whether a place is that of a loop.
fn is_loop(source: Source<'_>, place: Option<Span>) -> bool {
    match place {
        Some(place) => begins(source, place, b"for") || begins(source, place, b"while"),
        None => false,
    }
}

/// How the main stream can be mended, or its name.
fn push_main_hint(message: &mut Message, known: Known<'_>) -> Result<(), NoMemory>
    ensures { OnOk result (told.KeepsSentence message.old message.new) }
{
    match known.source.main {
        Some(name) if known.declaration_named(name.as_bytes()).is_none() => {
            push_nearest(message, known, name.as_bytes())
        }
        _ => push_words(
            message,
            b"the main stream is one like `void->void pipeline Main { .. }`",
        ),
    }
}

/// A hint where no token begins.
fn push_lexical_hint(message: &mut Message, text: &[u8], at: usize) -> Result<(), NoMemory>
    ensures { OnOk result (told.KeepsSentence message.old message.new) }
{
    let before = &text[..at.min(text.len())];
    match text.get(at) {
        Some(b'"') if before.ends_with(b"printf(") => {
            let _is_foreign = push_foreign_hint(message, b"printf")?;
            Ok(())
        }
        Some(b'#') if is_include(text, at) => {
            let _is_foreign = push_foreign_hint(message, b"include")?;
            Ok(())
        }
        Some(b'#') if before.is_empty() || before.ends_with(b"\n") => {
            push_words(message, b"a parameter stands for a constant")
        }
        _ => push_number_hint(message, text, at),
    }
}

/// The parameters of the stream that a part of a text adds.
fn push_parameters(
    message: &mut Message,
    known: Known<'_>,
    place: Option<Span>,
) -> Result<(), NoMemory>
    ensures { OnOk result (told.KeepsSentence message.old message.new) }
{
    let Some(declaration) = added_in(known, place) else {
        return Ok(());
    };
    message.hint()?;
    push_declared(message, declaration)
}

/// A stream with its parameters.
fn push_declared(message: &mut Message, declaration: &Decl) -> Result<(), NoMemory>
    ensures { OnOk result (GoesOn message.old message.new) }
{
    let parameters = parameters_of(declaration);
    message.quoted(declaration.name.as_bytes())?;
    message.add(b" has ")?;
    message.number(parameters.len() as u64)?;
    message.add(match parameters.len() {
        1 => b" parameter".as_slice(),
        _ => b" parameters".as_slice(),
    })?;
    for (number, parameter) in parameters.iter().enumerate() {
        message.add(if number == 0 {
            b": ".as_slice()
        } else {
            b", ".as_slice()
        })?;
        message.quoted(parameter.as_bytes())?;
    }
    Ok(())
}

/// The first declared stream that is named in a part of a text.
fn added_in<'a>(known: Known<'a>, place: Option<Span>) -> Option<&'a Decl> {
    let place = place?;
    known
        .source
        .tokens
        .iter()
        .filter(|it| is_in(it, place))
        .find_map(|it| match &it.kind {
            TokenKind::Name(name) => known.declaration_named(name.as_bytes()),
            _ => None,
        })
}

/// The names of a stream's parameters.
fn parameters_of(declaration: &Decl) -> &[Name] {
    match &declaration.parameters {
        Some(parameters) => parameters,
        None => &[],
    }
}

/// How a broken rule on types, kinds and parts can be mended, at this place.
fn mismatch_hint_at(source: Source<'_>, mismatch: Mismatch, place: Option<Span>) -> &'static [u8] {
    let Some(place) = place else {
        return mismatch_hint(mismatch);
    };
    if is_of_both_kinds(mismatch) && compares_bits(source, place) {
        return b"a comparison goes before `&`, `^` and `|`: write `(x & 1) == 0`";
    }
    if is_of_both_kinds(mismatch) && compares_twice(source, place) {
        return b"comparisons are joined by `&&`: write `0 < x && x < 3` for `0 < x < 3`";
    }
    match mismatch {
        Mismatch::Missing(_, Part::Add) if block_has(source, place.start, Keyword::Add) => {
            b"with these arguments nothing is added: `add Identity<int>();` passes items on"
        }
        Mismatch::NoCalls if begins(source, place, b"setDelay") => DELAYS.as_bytes(),
        _ => mismatch_hint(mismatch),
    }
}

/// Whether a number stands where a truth value is wanted, or the other way.
fn is_of_both_kinds(mismatch: Mismatch) -> bool {
    match mismatch {
        Mismatch::Value(ValueType::Int, ValueType::Boolean) => true,
        Mismatch::Value(ValueType::Boolean, ValueType::Int) => true,
        _ => false,
    }
}

/// The declared name that is most like one that isn't, or what stands for a foreign one.
fn push_nearest(message: &mut Message, known: Known<'_>, name: &[u8]) -> Result<(), NoMemory>
    ensures { OnOk result (told.KeepsSentence message.old message.new) }
{
    if push_foreign_hint(message, name)? {
        return Ok(());
    }
    match nearest_name(known.alloc, known.source.tokens, name)? {
        Some(nearest) => {
            message.hint()?;
            message.add(b"did you mean ")?;
            message.quoted(nearest)?;
            Ok(message.add(b"?")?)
        }
        None if known.declaration_named(name).is_some() => {
            push_words(
                message,
                b"a stream is added by `add`, as a statement of another stream",
            )
        }
        None => Ok(()),
    }
}

/// How a refusal can be mended; nothing where the sentence says enough.
fn hint_of(refusal: &Refusal) -> &'static [u8] {
    match refusal {
        Refusal::BadWeights { .. } => {
            b"one weight for each child, from 0 to 65,536, and not all of them 0"
        }
        Refusal::DepthLimit => b"a stream that adds itself needs a condition that ends it",
        Refusal::Nesting => b"a variable can hold a part of a long expression",
        _ => rate_hint(refusal),
    }
}

/// How rates, weights and loops can be mended.
fn rate_hint(refusal: &Refusal) -> &'static [u8] {
    match refusal {
        Refusal::RateUnknown { .. } => {
            b"each way through the body has to push and pop the same, in loops of fixed length"
        }
        Refusal::PeekOutside { .. } => {
            b"declare a greater peek; places count from 0, which is the next item after each pop"
        }
        Refusal::RateLimit { .. } => {
            b"rates are from 0 to 65,536, and work moves at least one item on a side that has \
                items, as in `work push 1 pop 1`"
        }
        Refusal::Inconsistent { .. } => {
            b"on each way from a split to its join a round has to bring as many items as are taken"
        }
        Refusal::CountsTooLarge => b"the rates at the two ends of each channel need smaller ratios",
        Refusal::StartupUnbounded | Refusal::Deadlock { .. } => {
            b"a feedback loop needs enough enqueued items for its first firings"
        }
        _ => b"",
    }
}
