// Arguments and weights.

ghost use Rattle.std.specs.Prelude.{◌≡◌, ◌+◌, map, [], ◌∷◌};
ghost use Rattle.strc_parse_tree.specs.View.{expr_view, weights_view};
ghost use Rattle.strc_parse_grammar.specs.Grammar.{kinds, lowest_precedence};
ghost use Rattle.strc_parse_grammar.specs.Seen.{seen, parsed, parsed_all, listed_view};
ghost use Rattle.strc_parse_grammar.specs.Readers.{ReadsExpressions};
ghost use Rattle.strc_parse_grammar.specs.Reading as spec;
ghost use Rattle.strc_parse_grammar.specs.Reading.{Gives};

use crate::ReadError;
use crate::expression::{LOWEST_PRECEDENCE, expression};
use crate::lookahead::{expect, is_punctuation, tail};
use crate::rule_result::Parsed;
use std::alloc::Global;
use strc_lex::token::{Punctuation, Token};
use strc_parse_tree::tree::{Brackets, Expr};

/// An argument, by a reader of expressions of this depth.
fn argument<'t, F: Fn(Global, usize, usize, &[Token]) -> Result<Parsed<'_, Expr>, ReadError>>(
    alloc: Global,
    depth: usize,
    reader: &F,
    tokens: &'t [Token],
) -> Result<Parsed<'t, Expr>, ReadError>
    requires reads { ReadsExpressions depth (F.pre reader.now) (F.post reader.now) }
    ensures { Gives (parsed expr_view) result
        (spec.expression depth lowest_precedence (kinds tokens.now)) }
{
    reader(alloc, depth, LOWEST_PRECEDENCE, tokens)
}

/// The arguments after these, each at its comma, and the height of the highest of all. The depth
/// is that of the reader of expressions.
#[tactic(auto, unfolding(crate::specs::Reading::more_arguments))]
fn more_arguments<'t, F: Fn(Global, usize, usize, &[Token]) -> Result<Parsed<'_, Expr>, ReadError>>(
    alloc: Global,
    depth: usize,
    reader: &F,
    first: Vec<Expr>,
    height: usize,
    tokens: &'t [Token],
) -> Result<Parsed<'t, Vec<Expr>>, ReadError>
    requires reads { ReadsExpressions depth (F.pre reader.now) (F.post reader.now) }
    ensures { Gives (parsed_all expr_view) result
        (spec.more_arguments (spec.expression depth) (map expr_view first.items, height)
        (kinds tokens.entry.now)) }
{
    let mut found = first;
    let mut highest = height;
    let mut rest = tokens;
    while is_punctuation(Punctuation::Comma, rest) {
        let next = argument(alloc, depth, reader, tail(rest))?;
        found.push(next.value)?;
        highest = highest.max(next.height);
        rest = next.rest;
    }
    Ok(Parsed::new(found, highest, rest))
}

/// Expressions with commas between them, or none before the bracket that closes them, and the
/// height of the highest or 0.
#[tactic(auto, unfolding(crate::specs::Reading::listed_arguments))]
fn listed_arguments<
    't,
    F: Fn(Global, usize, usize, &[Token]) -> Result<Parsed<'_, Expr>, ReadError>,
>(
    alloc: Global,
    depth: usize,
    reader: &F,
    tokens: &'t [Token],
) -> Result<Parsed<'t, Vec<Expr>>, ReadError>
    requires reads { ReadsExpressions depth (F.pre reader.now) (F.post reader.now) }
    ensures { Gives (parsed_all expr_view) result
        (spec.listed_arguments (spec.expression depth) (kinds tokens.now)) }
{
    let mut found = Vec::new(alloc);
    if is_punctuation(Punctuation::CloseParen, tokens) {
        return Ok(Parsed::new(found, 0, tokens));
    }
    let first = argument(alloc, depth, reader, tokens)?;
    found.push(first.value)?;
    more_arguments(alloc, depth, reader, found, first.height, first.rest)
}

/// The same with the bracket: `1, 2)`.
#[tactic(auto, unfolding(crate::specs::Reading::closed_arguments))]
pub(crate) fn closed_arguments<
    't,
    F: Fn(Global, usize, usize, &[Token]) -> Result<Parsed<'_, Expr>, ReadError>,
>(
    alloc: Global,
    depth: usize,
    reader: &F,
    tokens: &'t [Token],
) -> Result<Parsed<'t, Vec<Expr>>, ReadError>
    requires reads { ReadsExpressions depth (F.pre reader.now) (F.post reader.now) }
    ensures { Gives (parsed listed_view) result
        (spec.closed_arguments (spec.expression depth) (kinds tokens.now)) }
{
    listed_arguments(alloc, depth, reader, tokens)?.before(Punctuation::CloseParen)
}

/// `(1, 2)`, if it comes next, and the height of the highest expression or 0. The depth is the
/// expressions'.
#[tactic(auto, unfolding(crate::specs::Reading::arguments))]
pub fn arguments(
    alloc: Global,
    depth: usize,
    tokens: &[Token],
) -> Result<Parsed<'_, Option<Vec<Expr>>>, ReadError>
    ensures { Gives (parsed weights_view) result (spec.arguments depth (kinds tokens.now)) }
{
    if !is_punctuation(Punctuation::OpenParen, tokens) {
        return Ok(Parsed::new(None, 0, tokens));
    }
    let listed = closed_arguments(alloc, depth, &expression, tail(tokens))?;
    Ok(Parsed::new(Some(listed.value), listed.height, listed.rest))
}

/// `()`, if it comes next.
#[tactic(auto, unfolding(crate::specs::Reading::empty_brackets))]
pub fn empty_brackets(tokens: &[Token]) -> Result<(Brackets, &[Token]), ReadError>
    ensures { Gives seen result (spec.empty_brackets (kinds tokens.now)) }
{
    if !is_punctuation(Punctuation::OpenParen, tokens) {
        return Ok((Brackets::Missing, tokens));
    }
    let rest = expect(Punctuation::CloseParen, tail(tokens))?;
    Ok((Brackets::Written, rest))
}
