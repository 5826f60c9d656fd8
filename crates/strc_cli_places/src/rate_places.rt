// Which rate of a filter isn't the one that its statements come to, or isn't allowed.

ghost use Rattle.std.specs.Prelude.{◌≡◌, ℕ, IfOk, is_some, map};
ghost use Rattle.strc_lex.specs.KeywordTexts.{keyword_text};
ghost use Rattle.strc_parse_tree.specs.View.{rate_view};
ghost use Rattle.strc_work_meaning.specs.Filters as filters;
ghost use Rattle.strc_work_meaning.specs.Filters.{filter_of, has_rate};
ghost use Rattle.strc_cli_places.specs.Keywords as keywords;
ghost use Rattle.strc_run_refusal.specs.declared.refusal.Refusal.TheVariants as refused_for;
ghost use Rattle.strc_cli_places.specs.Refused as refused;
ghost use Rattle.strc_cli_source.specs.Spelling as spelling;

use std::alloc::Global;
use strc_cli_source::source::Source;
use strc_cli_source::spelling::beginning_or_first;
use strc_cli_source::tokens::{is_keyword, keyword_before};
use strc_lex::token::{Keyword, Token};
use strc_lex_names::memory::NoMemory;
use strc_lex_names::place::Span;
use strc_parse_tree::tree::{ItemType, RateKind, RateTree, Stmt};
use strc_rate::peeks::body_peeks;
use strc_run_refusal::refusal::Refusal;
use strc_work_code::bodies::rates_of;
use strc_work_code::code::{Code, RATE_LIMIT};
use strc_work_meaning::body::Body;

/// A rate of a filter.
#[derive(Clone, Copy)]
pub struct Moved {
    pub side: RateKind,
    pub declared: i32,
    pub body: Body,
}

/// The rate that a refusal is about, where it is known.
pub fn moved_of(alloc: Global, code: &Code, refusal: &Refusal) -> Result<Option<Moved>, NoMemory>
    ensures mismatch { (node declared counted : ℕ)
        → refusal.now ≡ refused_for.RateMismatch node declared counted
        → IfOk result (refused.Finds (refused.is_wrong (filter_of code.now))) }
    ensures limit { (node : ℕ) → refusal.now ≡ refused_for.RateLimit node
        → IfOk result (refused.Finds (refused.is_beyond (filter_of code.now))) }
{
    match refusal {
        Refusal::RateMismatch { .. } => wrong_rate(alloc, code),
        Refusal::RateLimit { .. } => Ok(refused_rate(code)),
        _ => Ok(None),
    }
}

/// The first rate that isn't the counted one.
fn wrong_rate(alloc: Global, code: &Code) -> Result<Option<Moved>, NoMemory>
    ensures { IfOk result (refused.Finds (refused.is_wrong (filter_of code.now))) }
{
    match wrong_rate_in(alloc, code, Body::Prework)? {
        Some(moved) => Ok(Some(moved)),
        None => wrong_rate_in(alloc, code, Body::Work),
    }
}

/// The first rate of a body that isn't the counted one; none where the body can't be counted.
fn wrong_rate_in(alloc: Global, code: &Code, body: Body) -> Result<Option<Moved>, NoMemory>
    ensures { IfOk result (refused.FindsIn (refused.is_wrong (filter_of code.now)) body) }
{
    let declared = code.rates(body);
    let Some(counts) = body_peeks(alloc, code.block(body), 0)?.counts else {
        return Ok(None);
    };
    if i64::from(declared.push) != i64::from(counts.pushes) {
        return Ok(Some(Moved {
            side: RateKind::Push,
            declared: declared.push,
            body,
        }));
    }
    if i64::from(declared.pop) != i64::from(counts.pops) {
        return Ok(Some(Moved {
            side: RateKind::Pop,
            declared: declared.pop,
            body,
        }));
    }
    Ok(None)
}

/// The first rate that isn't allowed.
fn refused_rate(code: &Code) -> Option<Moved>
    ensures { refused.Finds (refused.is_beyond (filter_of code.now)) result }
{
    match refused_rate_in(code, Body::Prework) {
        Some(moved) => Some(moved),
        None => refused_rate_in(code, Body::Work),
    }
}

/// The first rate of a body that isn't allowed.
fn refused_rate_in(code: &Code, body: Body) -> Option<Moved>
    ensures { refused.FindsIn (refused.is_beyond (filter_of code.now)) body result }
{
    let tree = code.tree();
    let rates = code.rates(body);
    let (side, declared) = if is_refused(rates.push, tree.output, body) {
        (RateKind::Push, rates.push)
    } else if is_refused(rates.pop, tree.input, body) {
        (RateKind::Pop, rates.pop)
    } else if is_refused(rates.peek, ItemType::Void, body) {
        (RateKind::Peek, rates.peek)
    } else {
        return None;
    };
    Some(Moved {
        side,
        declared,
        body,
    })
}

/// Whether a rate isn't allowed: it is below 0 or too great, or 0 in `work` on a side with items.
fn is_refused(declared: i32, items: ItemType, body: Body) -> bool
    ensures { result ≡ refused.is_refused declared items body }
{
    let is_missing = match (body, items) {
        (Body::Work, ItemType::Int) => declared == 0,
        _ => false,
    };
    declared < 0 || declared > RATE_LIMIT || is_missing
}

/// How a rate's kind is written.
pub fn rate_keyword(side: RateKind) -> Keyword
    ensures { result ≡ keywords.rate_keyword side }
{
    match side {
        RateKind::Push => Keyword::Push,
        RateKind::Pop => Keyword::Pop,
        RateKind::Peek => Keyword::Peek,
    }
}

/// Where a filter has a rate, or the keyword of its body where it has none; `filter` is where it is
/// declared or added.
pub fn place_of_rate(
    source: Source<'_>,
    code: &Code,
    moved: Moved,
    filter: Option<Span>,
) -> Option<Span>
    ensures { spelling.MarksFrom source.entry.text.now source.entry.tokens.now
        (keyword_text (keywords.declared_keyword moved.side moved.body
        (filter_of code.now).members)) result }
{
    let rates = rates_of(&code.tree().members, moved.body);
    match place_of_kind(rates, moved.side) {
        Some(place) => beginning_or_first(source, Some(place), rate_keyword(moved.side).text()),
        None => {
            let body = written_body(code, moved.body);
            let keyword = body_keyword(body);
            let place = match first_place(rates, code.block(body)) {
                Some(inside) => keyword_before(source.tokens, inside.start, keyword),
                None => keyword_after(source.tokens, filter, keyword),
            };
            beginning_or_first(source, place.or(filter), keyword.text())
        }
    }
}

/// Where the first rate of a kind is.
fn place_of_kind(rates: &[RateTree], kind: RateKind) -> Option<Span>
    ensures { is_some result ≡ has_rate kind (map rate_view rates.now) }
{
    for rate in rates {
        if same_kind(kind, rate.kind) {
            return Some(rate.place);
        }
    }
    None
}

fn same_kind(first: RateKind, second: RateKind) -> bool
    ensures { result ≡ filters.same_kind first second }
{
    match (first, second) {
        (RateKind::Push, RateKind::Push)
        | (RateKind::Pop, RateKind::Pop)
        | (RateKind::Peek, RateKind::Peek) => true,
        _ => false,
    }
}

/// The body in the text that is run as this one: without a prework each is the work.
fn written_body(code: &Code, body: Body) -> Body
    ensures { result ≡ keywords.written_body body (filter_of code.now).members }
{
    match body {
        Body::Prework if code.has_prework() => Body::Prework,
        _ => Body::Work,
    }
}

/// The first such keyword from the start of a filter on.
fn keyword_after(tokens: &[Token], filter: Option<Span>, keyword: Keyword) -> Option<Span> {
    let start = filter?.start;
    let found = tokens.iter().find(|token| token.span.start >= start
        && is_keyword(token, keyword))?;
    Some(found.span)
}

/// Where the first rate is, or else the first statement.
fn first_place(rates: &[RateTree], block: &[Stmt]) -> Option<Span> {
    match (rates.first(), block.first()) {
        (Some(rate), _) => Some(rate.place),
        (None, Some(Stmt::Placed(place, _))) => Some(*place),
        _ => None,
    }
}

/// How a body is written.
fn body_keyword(body: Body) -> Keyword
    ensures { result ≡ keywords.body_keyword body }
{
    match body {
        Body::Prework => Keyword::Prework,
        Body::Work => Keyword::Work,
    }
}
