// What is said of a broken rule on types, kinds and parts.

ghost use Rattle.std.specs.Prelude.{◌≡◌, OnOk};
ghost use Rattle.strc_cli_diagnostics.specs.Messages.{with_more};
ghost use Rattle.strc_cli_source.specs.NodeWords.{Adds};
ghost use Rattle.strc_cli_messages.specs.RuleWords as words;

use crate::marked_tokens::block_has;
use std::alloc::AllocError;
use strc_cli_diagnostics::message::Message;
use strc_cli_places::known::Known;
use strc_cli_places::places::{kind_keyword, part_keyword};
use strc_lex::token::Keyword;
use strc_lex_names::place::Span;
use strc_parse_tree::tree::CompositeKind;
use strc_work_meaning::types::ValueType;
use strc_work_rules::site::{Mismatch, Part};

/// Which rule is broken, at this place.
pub(crate) fn push_mismatch(
    message: &mut Message,
    known: Known<'_>,
    mismatch: Mismatch,
    place: Option<Span>,
) -> Result<(), AllocError>
    ensures { OnOk result (Adds (words.AreRuleWords known.entry.source.text.now place mismatch)
        message.old message.new) }
{
    match mismatch {
        Mismatch::DeclaredTwice => push_again(message, known, place),
        Mismatch::Foreign(kind, part) => {
            push_part(message, b"a ", kind, b" has no statements with ", part)
        }
        Mismatch::Second(kind, part) => {
            push_part(message, b"this ", kind, b" has a second ", part)
        }
        Mismatch::Missing(kind, part) => push_missing(message, known, kind, part, place),
        Mismatch::Value(wanted, found) => push_value(message, wanted, found),
        _ => message.add(plain_rule(mismatch)),
    }
}

/// A name that is declared twice.
#[tactic(auto, using(crate::proofs::Saying::in_two))]
fn push_again(
    message: &mut Message,
    known: Known<'_>,
    place: Option<Span>,
) -> Result<(), AllocError>
    ensures { OnOk result (message.new ≡ with_more message.old
        (words.again_words known.entry.source.text.now place)) }
{
    match place {
        Some(place) => {
            message.quoted(known.source.bytes(place))?;
            message.add(b" is declared a second time here")
        }
        None => message.add(b"a name is declared a second time here"),
    }
}

/// A part that a stream of a kind lacks, or an `add` that hasn't run.
fn push_missing(
    message: &mut Message,
    known: Known<'_>,
    kind: CompositeKind,
    part: Part,
    place: Option<Span>,
) -> Result<(), AllocError>
    ensures { OnOk result (Adds (words.AreMissingWords kind part) message.old message.new) }
{
    match part {
        Part::Add if has_add(known, place) => {
            message.add(b"no `add` of this ")?;
            message.add(kind_keyword(kind).text())?;
            Ok(message.add(b" has run")?)
        }
        _ => push_part(message, b"this ", kind, b" has no ", part),
    }
}

/// A value of one type where another one is wanted.
#[tactic(auto, using(crate::proofs::Saying::in_three))]
fn push_value(message: &mut Message, wanted: ValueType, found: ValueType) -> Result<(), AllocError>
    ensures { OnOk result (message.new ≡ with_more message.old (words.value_words wanted found)) }
{
    message.add(wanted_words(wanted))?;
    message.add(b" is wanted here, and this is ")?;
    message.add(found_words(found))
}

/// Whether the block of the stream at a place has an `add`.
fn has_add(known: Known<'_>, place: Option<Span>) -> bool {
    match place {
        Some(place) => block_has(known.source, place.start, Keyword::Add),
        None => false,
    }
}

/// A kind of stream and a part, with what is said before each.
fn push_part(
    message: &mut Message,
    before: &[u8],
    kind: CompositeKind,
    middle: &[u8],
    part: Part,
) -> Result<(), AllocError>
    ensures { OnOk result (message.new ≡ with_more message.old
        (words.part_words before.now kind middle.now part)) }
{
    message.add(before)?;
    message.add(kind_keyword(kind).text())?;
    message.add(middle)?;
    message.quoted(part_keyword(part).text())
}

fn wanted_words(kind: ValueType) -> &'static [u8]
    ensures { result.now ≡ words.wanted_words kind }
{
    match kind {
        ValueType::Int => b"a number",
        ValueType::Boolean => b"a truth value",
        ValueType::Array => b"an array",
    }
}

fn found_words(kind: ValueType) -> &'static [u8]
    ensures { result.now ≡ words.found_words kind }
{
    match kind {
        ValueType::Int => b"a number",
        ValueType::Boolean => b"a truth value",
        ValueType::Array => b"an array without an index",
    }
}

/// A rule of which nothing else is told.
fn plain_rule(mismatch: Mismatch) -> &'static [u8]
    ensures { result.now ≡ words.plain_rule_words mismatch }
{
    match mismatch {
        Mismatch::NoWork => b"this filter has no `work`",
        Mismatch::SecondWork => b"this filter has a second `work`",
        Mismatch::SecondPrework => b"this filter has a second `prework`",
        Mismatch::SecondInit => b"this filter has a second `init`",
        Mismatch::ConstantWritten => b"a constant is changed here",
        Mismatch::VariableInConstant => b"a rate or the length of an array uses a variable here",
        Mismatch::NoArray => b"an element is taken here of what is no array",
        Mismatch::WholeArray => b"an array is used here without an index",
        Mismatch::NoInput => b"no items come in here, so that none can be popped or peeked at",
        Mismatch::NoOutput => b"no items go out here, so that none can be pushed",
        Mismatch::NoPrinting => b"nothing can be printed here",
        Mismatch::RateWithoutItems => b"a rate is above 0 on a side that has no items",
        Mismatch::NoCalls => b"no helper function can be called here",
        Mismatch::NothingGiven => b"a value is wanted here, and this helper function gives none",
        Mismatch::FlowInHelper => b"a helper function doesn't pop, peek, push or print",
        Mismatch::NoHelper => b"only a helper function returns",
        Mismatch::ValueMissing => b"this helper function gives a value, and none is returned here",
        Mismatch::ValueUnwanted => b"this helper function gives no value, and one is returned here",
        Mismatch::StreamStatement => b"a filter has no statements that put streams together",
        Mismatch::FilterStatement => b"only a filter pushes or prints",
        Mismatch::Follows => b"this child doesn't take what the child before it gives",
        Mismatch::First => {
            b"the pipeline begins with this child, which doesn't take what the pipeline is to take"
        }
        Mismatch::Last => {
            b"the pipeline ends with this child, which doesn't give what the pipeline is to give"
        }
        Mismatch::Sides => {
            b"the children of this splitjoin don't take and give what it is to take and give"
        }
        Mismatch::LoopSides => {
            b"the weights of this feedbackloop don't go with what it is to take and give"
        }
        Mismatch::LoopChild => {
            b"the body and the loop of a feedbackloop take and give items, and this one doesn't"
        }
        _ => b"a type, a kind or a part isn't the one that must be there",
    }
}

/// How a broken rule can be mended; nothing where the sentence says enough.
pub(crate) fn mismatch_hint(mismatch: Mismatch) -> &'static [u8] {
    match mismatch {
        Mismatch::NoWork | Mismatch::SecondWork | Mismatch::SecondPrework | Mismatch::SecondInit =>
            b"a filter has one work, at most one prework and one init",
        Mismatch::DeclaredTwice => {
            b"a name is declared once in its block, among fields, and among parameters"
        }
        Mismatch::Value(ValueType::Int, ValueType::Boolean) => {
            b"`c ? 1 : 0` is 1 where c is true, and else 0"
        }
        Mismatch::Value(ValueType::Boolean, ValueType::Int) => {
            b"a comparison, as `x != 0`, is a truth value"
        }
        Mismatch::Value(_, ValueType::Array) | Mismatch::WholeArray => {
            b"an element is written with its index, as `x[0]`"
        }
        Mismatch::ConstantWritten => b"a parameter keeps its value: change a variable of its own",
        Mismatch::VariableInConstant => b"rates and lengths are made of numbers and parameters",
        Mismatch::NoInput => b"pop and peek are for work and prework of a filter that takes `int`",
        Mismatch::NoOutput => b"push is for work and prework of a filter that gives `int`",
        Mismatch::NoPrinting => b"print and println are for work and prework",
        Mismatch::RateWithoutItems => b"a filter's type says what it takes and gives",
        Mismatch::NoCalls => b"fields, init, prework, work and helper functions call them",
        Mismatch::NothingGiven => b"its call is a statement of its own",
        Mismatch::FlowInHelper => b"do it in work, and give the helper function what it needs",
        Mismatch::NoHelper =>
            b"the rest of a body can stand in an `if`; an item is given by `push`",
        Mismatch::ValueMissing => b"write the value, as `return 0;`",
        Mismatch::ValueUnwanted => b"write `return;`, or give the helper function a type",
        Mismatch::StreamStatement => b"streams are added in a pipeline or a splitjoin",
        Mismatch::FilterStatement => b"it is for the work of a filter",
        Mismatch::Follows => b"see what each child takes and gives",
        Mismatch::First | Mismatch::Last => {
            b"a pipeline takes what its first child takes, and gives what its last child gives"
        }
        Mismatch::Foreign(kind, part)
        | Mismatch::Second(kind, part)
        | Mismatch::Missing(kind, part) => part_hint(kind, part),
        Mismatch::Sides => b"a splitjoin takes items if a child does, and gives some if one does",
        Mismatch::LoopSides => {
            b"a weight before or after the loop is above 0 where it takes or gives items"
        }
        _ => b"",
    }
}

/// Which parts a composite stream of a kind has.
fn part_hint(kind: CompositeKind, part: Part) -> &'static [u8] {
    match (kind, part) {
        (CompositeKind::Pipeline, Part::Split | Part::Join) => {
            b"streams side by side are in a splitjoin: add splitjoin { split ..; add ..; join ..; }"
        }
        (CompositeKind::Pipeline, _) => b"a pipeline has one add or more",
        (CompositeKind::Splitjoin, _) => {
            b"a splitjoin has one split, then one add or more, and one join"
        }
        (CompositeKind::Feedbackloop, _) => {
            b"a feedbackloop has one join, one body, one loop and one split"
        }
    }
}
