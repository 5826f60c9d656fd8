// Statements without others in them, and their parts.

ghost use Rattle.std.specs.Prelude.{◌≡◌, ◌∷◌, ◌-◌, ◌<◌, IfOk};
ghost use Rattle.strc_lex.specs.declared.token.TokenKind.TheVariants as token;
ghost use Rattle.strc_lex.specs.declared.token.Punctuation.TheVariants as punctuation;
ghost use Rattle.strc_parse_tree.specs.View.{expr_view, stmt_view};
ghost use Rattle.strc_parse_grammar.specs.Grammar.{kinds};
ghost use Rattle.std.specs.Option.{option_map};
ghost use Rattle.strc_parse_grammar.specs.Seen.{parsed};
ghost use Rattle.strc_parse.specs.Seen.{heading_view, after_first_view};
ghost use Rattle.strc_parse_grammar.specs.Reading as spec;
ghost use Rattle.strc_parse_grammar.specs.Reading.{Gives};
ghost use Rattle.strc_parse.specs.Placed.{IsHeadingPlaced, IsPlain, IsStepPlaced};

use crate::place::placed;
use std::alloc::Global;
use std::mem;
use strc_lex::token::{Keyword, Punctuation, Token, TokenKind};
use strc_lex_names::name::Name;
use strc_parse_grammar::ReadError;
use strc_parse_grammar::expression::{LOWEST_PRECEDENCE, closed, expression};
use strc_parse_grammar::lookahead::{expect, is_punctuation, peek, raised, tail};
use strc_parse_grammar::operator::assign_at;
use strc_parse_grammar::part::raise;
use strc_parse_grammar::rule_result::Parsed;
use strc_parse_grammar::sequence::{both, node_of, with_mark, with_node_height};
use strc_parse_grammar::variable::declared;
use strc_parse_tree::tree::{AssignOperator, Expr, Stmt};

/// The declaration as a statement.
#[tactic(auto, unfolding(strc_parse_grammar::specs::Reading::declare))]
fn declare(alloc: Global, depth: usize, tokens: &[Token]) -> Result<Parsed<'_, Stmt>, ReadError>
    requires { 0 < depth }
    ensures gives { Gives (parsed stmt_view) result (spec.declare depth (kinds tokens.now)) }
    ensures plain { IfOk result (λ r. IsPlain r.value) }
{
    let declared = declared(alloc, depth - 1, tokens);
    node_of(with_node_height(depth, declared), Stmt::Declare)
}

/// An expression that was read, as a statement.
#[tactic(auto, unfolding(strc_parse_grammar::specs::Reading::evaluate))]
fn evaluate<'t>(
    depth: usize,
    value: Expr,
    height: usize,
    tokens: &'t [Token],
) -> Result<Parsed<'t, Stmt>, ReadError>
    ensures gives { Gives (parsed stmt_view) result
        (spec.evaluate depth (expr_view value) height (kinds tokens.now)) }
    ensures plain { IfOk result (λ r. IsPlain r.value) }
{
    let (value, height) = raise(depth, value, height)?;
    Ok(Parsed::new(Stmt::Evaluate(value), height, tokens))
}

/// `x = e`: after the operator.
#[tactic(auto, unfolding(strc_parse_grammar::specs::Reading::assign_to))]
fn assign_to<'t>(
    alloc: Global,
    depth: usize,
    name: Name,
    operator: AssignOperator,
    tokens: &'t [Token],
) -> Result<Parsed<'t, Stmt>, ReadError>
    requires { 0 < depth }
    ensures gives { Gives (parsed stmt_view) result
        (spec.assign_to depth name operator (kinds tokens.now)) }
    ensures plain { IfOk result (λ r. IsPlain r.value) }
{
    let value = expression(alloc, depth - 1, LOWEST_PRECEDENCE, tokens)?;
    let height = raised(depth, value.height)?;
    Ok(Parsed::new(
        Stmt::Assign(name, operator, value.value),
        height,
        value.rest,
    ))
}

/// `x[i] = e`: after the operator, with the height of the element.
#[tactic(auto, unfolding(strc_parse_grammar::specs::Reading::assign_element))]
fn assign_element<'t>(
    alloc: Global,
    depth: usize,
    name: Name,
    index: Expr,
    element_height: usize,
    operator: AssignOperator,
    tokens: &'t [Token],
) -> Result<Parsed<'t, Stmt>, ReadError>
    requires { 0 < depth }
    ensures gives { Gives (parsed stmt_view) result
        (spec.assign_element depth name (expr_view index) element_height operator
        (kinds tokens.now)) }
    ensures plain { IfOk result (λ r. IsPlain r.value) }
{
    let value = expression(alloc, depth - 1, LOWEST_PRECEDENCE, tokens)?;
    let height = raised(depth, element_height.max(value.height))?;
    Ok(Parsed::new(
        Stmt::AssignElement(name, index, operator, value.value),
        height,
        value.rest,
    ))
}

/// What an operator that comes first makes of the expression before it: an assignment, where that
/// is a variable or an element.
#[tactic(auto, unfolding(strc_parse_grammar::specs::Reading::assignment))]
fn assignment<'t>(
    alloc: Global,
    depth: usize,
    mut value: Expr,
    height: usize,
    operator: AssignOperator,
    tokens: &'t [Token],
) -> Result<Parsed<'t, Stmt>, ReadError>
    requires { 0 < depth }
    ensures gives { Gives (parsed stmt_view) result
        (spec.assignment depth (expr_view value) height operator (kinds tokens.now)) }
    ensures plain { IfOk result (λ r. IsPlain r.value) }
{
    // Its parts are taken out of it, as a value with a drop of its own isn't taken apart.
    match &mut value {
        Expr::Read(name) => {
            let name = mem::replace(name, Name::new(Vec::new(alloc)));
            assign_to(alloc, depth, name, operator, tail(tokens))
        }
        Expr::Element(name, index) => {
            let name = mem::replace(name, Name::new(Vec::new(alloc)));
            let index = mem::replace(&mut **index, Expr::Pop);
            assign_element(alloc, depth, name, index, height, operator, tail(tokens))
        }
        _ => evaluate(depth, value, height, tokens),
    }
}

#[tactic(auto, unfolding(strc_parse_grammar::specs::Reading::after_value))]
fn after_value<'t>(
    alloc: Global,
    depth: usize,
    value: Expr,
    height: usize,
    tokens: &'t [Token],
) -> Result<Parsed<'t, Stmt>, ReadError>
    requires { 0 < depth }
    ensures gives { Gives (parsed stmt_view) result
        (spec.after_value depth (expr_view value) height (kinds tokens.now)) }
    ensures plain { IfOk result (λ r. IsPlain r.value) }
{
    match assign_at(tokens) {
        None => evaluate(depth, value, height, tokens),
        Some(operator) => assignment(alloc, depth, value, height, operator, tokens),
    }
}

/// An expression or an assignment.
#[tactic(auto, unfolding(strc_parse_grammar::specs::Reading::simple))]
fn simple(alloc: Global, depth: usize, tokens: &[Token]) -> Result<Parsed<'_, Stmt>, ReadError>
    requires { 0 < depth }
    ensures gives { Gives (parsed stmt_view) result (spec.simple depth (kinds tokens.now)) }
    ensures plain { IfOk result (λ r. IsPlain r.value) }
{
    let read = expression(alloc, depth - 1, LOWEST_PRECEDENCE, tokens)?;
    after_value(alloc, depth, read.value, read.height, read.rest)
}

/// The same, or nothing before this punctuation mark.
#[tactic(auto, unfolding(strc_parse_grammar::specs::Reading::optional))]
fn optional(
    alloc: Global,
    depth: usize,
    end: Punctuation,
    tokens: &[Token],
) -> Result<Parsed<'_, Stmt>, ReadError>
    requires { 0 < depth }
    ensures gives { Gives (parsed stmt_view) result (spec.optional depth end (kinds tokens.now)) }
    ensures plain { IfOk result (λ r. IsPlain r.value) }
{
    if is_punctuation(end, tokens) {
        Ok(Parsed::new(Stmt::Empty, 1, tokens))
    } else {
        simple(alloc, depth, tokens)
    }
}

/// A statement up to its semicolon.
#[tactic(auto, unfolding(strc_parse_grammar::specs::Reading::part))]
fn part(alloc: Global, depth: usize, tokens: &[Token]) -> Result<Parsed<'_, Stmt>, ReadError>
    requires { 0 < depth }
    ensures gives { Gives (parsed stmt_view) result (spec.part depth (kinds tokens.now)) }
    ensures plain { IfOk result (λ r. IsPlain r.value) }
{
    match peek(tokens) {
        Some(TokenKind::Keyword(Keyword::Boolean)) => declare(alloc, depth, tokens),
        Some(TokenKind::Keyword(Keyword::Int)) => declare(alloc, depth, tokens),
        _ => optional(alloc, depth, Punctuation::Semicolon, tokens),
    }
}

/// The same with the semicolon.
#[tactic(auto, unfolding(strc_parse_grammar::specs::Reading::ended))]
pub(crate) fn ended(
    alloc: Global,
    depth: usize,
    tokens: &[Token],
) -> Result<Parsed<'_, Stmt>, ReadError>
    requires { 0 < depth }
    ensures gives { Gives (parsed stmt_view) result (spec.ended depth (kinds tokens.now)) }
    ensures plain { IfOk result (λ r. IsPlain r.value) }
{
    with_mark(Punctuation::Semicolon, part(alloc, depth, tokens))
}

/// `(e)`, with the height of e.
#[tactic(auto, unfolding(strc_parse_grammar::specs::Reading::bracketed))]
pub(crate) fn bracketed(
    alloc: Global,
    depth: usize,
    tokens: &[Token],
) -> Result<Parsed<'_, Expr>, ReadError>
    requires { 0 < depth }
    ensures { Gives (parsed expr_view) result (spec.bracketed depth (kinds tokens.now)) }
{
    let inside = expect(Punctuation::OpenParen, tokens)?;
    closed(alloc, depth - 1, Punctuation::CloseParen, inside)
}

/// `(e);`, with the height of a node above e.
#[tactic(auto, unfolding(strc_parse_grammar::specs::Reading::argument))]
pub(crate) fn argument(
    alloc: Global,
    depth: usize,
    tokens: &[Token],
) -> Result<Parsed<'_, Expr>, ReadError>
    requires { 0 < depth }
    ensures { Gives (parsed expr_view) result (spec.argument depth (kinds tokens.now)) }
{
    let read = bracketed(alloc, depth, tokens);
    with_node_height(depth, with_mark(Punctuation::Semicolon, read))
}

/// An expression, if there is one, and its semicolon.
#[tactic(auto, unfolding(strc_parse_grammar::specs::Reading::optional_value))]
fn optional_value(
    alloc: Global,
    depth: usize,
    tokens: &[Token],
) -> Result<Parsed<'_, Option<Expr>>, ReadError>
    ensures { Gives (parsed (option_map expr_view)) result
        (spec.optional_value depth (kinds tokens.now)) }
{
    if is_punctuation(Punctuation::Semicolon, tokens) {
        return Ok(Parsed::new(None, 0, tail(tokens)));
    }
    let read = closed(alloc, depth, Punctuation::Semicolon, tokens)?;
    Ok(Parsed::new(Some(read.value), read.height, read.rest))
}

/// `return`: after the keyword.
#[tactic(auto, unfolding(strc_parse_grammar::specs::Reading::return_value))]
pub(crate) fn return_value(
    alloc: Global,
    depth: usize,
    tokens: &[Token],
) -> Result<Parsed<'_, Stmt>, ReadError>
    requires { 0 < depth }
    ensures gives { Gives (parsed stmt_view) result (spec.return_value depth (kinds tokens.now)) }
    ensures plain { IfOk result (λ r. IsPlain r.value) }
{
    let value = optional_value(alloc, depth - 1, tokens);
    node_of(with_node_height(depth, value), Stmt::Return)
}

/// The step of a `for`, and the bracket after it.
#[tactic(auto, unfolding(strc_parse_grammar::specs::Reading::last_part))]
fn last_part<'t>(
    alloc: Global,
    all: &'t [Token],
    depth: usize,
    tokens: &'t [Token],
) -> Result<Parsed<'t, Stmt>, ReadError>
    requires { 0 < depth }
    ensures gives { Gives (parsed stmt_view) result (spec.last_part depth (kinds tokens.now)) }
    ensures placed { IfOk result (λ r. IsStepPlaced all.now r.value
        (token.Punctuation punctuation.CloseParen ∷ kinds r.rest.now)) }
{
    let read = optional(alloc, depth, Punctuation::CloseParen, tokens)?;
    with_mark(Punctuation::CloseParen, placed(alloc, all, tokens, read))
}

/// `condition; step)`, and the height of the higher.
#[tactic(auto, unfolding(strc_parse_grammar::specs::Reading::after_first))]
fn after_first<'t>(
    alloc: Global,
    all: &'t [Token],
    depth: usize,
    tokens: &'t [Token],
) -> Result<Parsed<'t, (Option<Expr>, Stmt)>, ReadError>
    requires { 0 < depth }
    ensures gives { Gives (parsed after_first_view) result
        (spec.after_first depth (kinds tokens.now)) }
    ensures placed { IfOk result (λ r. IsStepPlaced all.now r.value.1
        (token.Punctuation punctuation.CloseParen ∷ kinds r.rest.now)) }
{
    let read = optional_value(alloc, depth, tokens)?;
    both(
        read.value,
        read.height,
        last_part(alloc, all, depth, read.rest),
    )
}

/// What is in the brackets of a `for`: the first part, and the condition with the step.
pub(crate) type ForHeading = (Stmt, (Option<Expr>, Stmt));

/// `(first; condition; step)`, and the height of the highest.
#[tactic(auto, unfolding(strc_parse_grammar::specs::Reading::for_heading))]
pub(crate) fn for_heading<'t>(
    alloc: Global,
    all: &'t [Token],
    depth: usize,
    tokens: &'t [Token],
) -> Result<Parsed<'t, ForHeading>, ReadError>
    requires { 0 < depth }
    ensures gives { Gives (parsed heading_view) result (spec.for_heading depth (kinds tokens.now)) }
    ensures placed { IfOk result (λ r. IsHeadingPlaced all.now r.value (kinds r.rest.now)) }
{
    let opened = expect(Punctuation::OpenParen, tokens)?;
    let read = ended(alloc, depth, opened)?;
    let read = placed(alloc, all, opened, read)?;
    both(
        read.value,
        read.height,
        after_first(alloc, all, depth, read.rest),
    )
}
