// Declarations of variables.

ghost use Rattle.std.specs.Prelude.{◌≡◌, ◌+◌, map, [], ◌∷◌};
ghost use Rattle.strc_parse_tree.specs.View.{expr_view, type_view, variable_view};
ghost use Rattle.strc_parse_grammar.specs.Grammar.{kinds};
ghost use Rattle.std.specs.Option.{option_map};
ghost use Rattle.strc_parse_grammar.specs.Seen.{parsed, parsed_all, declared_view};
ghost use Rattle.strc_parse_grammar.specs.Reading as spec;
ghost use Rattle.strc_parse_grammar.specs.Reading.{Gives};

use crate::ReadError;
use crate::expression::{LOWEST_PRECEDENCE, closed, expression};
use crate::lookahead::{is_punctuation, name, peek, tail, unexpected};
use crate::part::beside;
use crate::place::span_of;
use crate::rule_result::Parsed;
use std::alloc::Global;
use strc_lex::token::{Keyword, Punctuation, Token, TokenKind};
use strc_parse_tree::tree::{Expr, Variable, VariableType, Variables};

/// `= e`, if it comes next: the initialiser, and its height or 0.
#[tactic(auto, unfolding(crate::specs::Reading::initial))]
fn initial(
    alloc: Global,
    depth: usize,
    tokens: &[Token],
) -> Result<Parsed<'_, Option<Expr>>, ReadError>
    ensures { Gives (parsed (option_map expr_view)) result (spec.initial depth (kinds tokens.now)) }
{
    if !is_punctuation(Punctuation::Assign, tokens) {
        return Ok(Parsed::new(None, 0, tokens));
    }
    let read = expression(alloc, depth, LOWEST_PRECEDENCE, tail(tokens))?;
    Ok(Parsed::new(Some(read.value), read.height, read.rest))
}

/// `x` or `x = e`, with the height of e or 0.
#[tactic(auto, unfolding(crate::specs::Reading::variable))]
fn variable(
    alloc: Global,
    depth: usize,
    tokens: &[Token],
) -> Result<Parsed<'_, Variable>, ReadError>
    ensures { Gives (parsed variable_view) result (spec.variable depth (kinds tokens.now)) }
{
    let (name, rest) = name(tokens)?;
    let read = initial(alloc, depth, rest)?;
    let initial = read.value;
    Ok(Parsed::new(Variable { name, initial }, read.height, read.rest))
}

/// Variables with commas between them, and the height of the highest initialiser or 0.
#[tactic(auto, unfolding(crate::specs::Reading::variables))]
fn variables(
    alloc: Global,
    depth: usize,
    tokens: &[Token],
) -> Result<Parsed<'_, Vec<Variable>>, ReadError>
    ensures { Gives (parsed_all variable_view) result (spec.variables depth (kinds tokens.now)) }
{
    let first = variable(alloc, depth, tokens)?;
    let mut found = Vec::new(alloc);
    found.push(first.value)?;
    more_variables(alloc, depth, found, first.height, first.rest)
}

/// The same after these.
#[tactic(auto, unfolding(crate::specs::Reading::more_variables))]
fn more_variables<'t>(
    alloc: Global,
    depth: usize,
    first: Vec<Variable>,
    height: usize,
    tokens: &'t [Token],
) -> Result<Parsed<'t, Vec<Variable>>, ReadError>
    ensures { Gives (parsed_all variable_view) result
        (spec.more_variables depth (map variable_view first.items, height)
        (kinds tokens.entry.now)) }
{
    let mut found = first;
    let mut highest = height;
    let mut rest = tokens;
    while is_punctuation(Punctuation::Comma, rest) {
        let next = variable(alloc, depth, tail(rest))?;
        found.push(next.value)?;
        highest = highest.max(next.height);
        rest = next.rest;
    }
    Ok(Parsed::new(found, highest, rest))
}

/// `int` or `int[n]`: after the keyword.
#[tactic(auto, unfolding(crate::specs::Reading::int_type))]
fn int_type(
    alloc: Global,
    depth: usize,
    tokens: &[Token],
) -> Result<Parsed<'_, VariableType>, ReadError>
    ensures { Gives (parsed type_view) result (spec.int_type depth (kinds tokens.now)) }
{
    if !is_punctuation(Punctuation::OpenBracket, tokens) {
        return Ok(Parsed::new(VariableType::Int, 0, tokens));
    }
    let length = closed(alloc, depth, Punctuation::CloseBracket, tail(tokens))?;
    Ok(Parsed::new(
        VariableType::Array(length.value),
        length.height,
        length.rest,
    ))
}

/// The type of variables, and the height of its length or 0.
#[tactic(auto, unfolding(crate::specs::Reading::variable_type))]
fn variable_type(
    alloc: Global,
    depth: usize,
    tokens: &[Token],
) -> Result<Parsed<'_, VariableType>, ReadError>
    ensures { Gives (parsed type_view) result (spec.variable_type depth (kinds tokens.now)) }
{
    match peek(tokens) {
        Some(TokenKind::Keyword(Keyword::Boolean)) => Ok(Parsed::new(
            VariableType::Boolean,
            0,
            tail(tokens),
        )),
        Some(TokenKind::Keyword(Keyword::Int)) => int_type(alloc, depth, tail(tokens)),
        _ => Err(unexpected(tokens)),
    }
}

/// `int x = 1, y`, and the height of the highest expression or 0. The depth is the expressions'.
#[tactic(auto, unfolding(crate::specs::Reading::declared))]
pub fn declared(
    alloc: Global,
    depth: usize,
    tokens: &[Token],
) -> Result<Parsed<'_, Variables>, ReadError>
    ensures { Gives (parsed declared_view) result (spec.declared depth (kinds tokens.now)) }
{
    let read = variable_type(alloc, depth, tokens)?;
    let (kind, others) = beside(read.value, variables(alloc, depth, read.rest))?;
    let variables = others.value;
    let height = read.height.max(others.height);
    let place = span_of(tokens, others.rest);
    Ok(Parsed::new(
        Variables {
            kind,
            variables,
            place,
        },
        height,
        others.rest,
    ))
}
