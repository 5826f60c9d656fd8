// The rules on names and types of statements.

ghost use Rattle.std.specs.Prelude.{◌≡◌, ◌∷◌, OnOk, length, map};
ghost use Rattle.std.specs.Option.{option_map};
ghost use Rattle.strc_parse_tree.specs.Tree as tree;
ghost use Rattle.strc_parse_tree.specs.View.{expr_view, type_view, variable_view, stmt_view};
ghost use Rattle.strc_parse_tree.specs.View.{block_view};
ghost use Rattle.strc_parse_tree.specs.declared.tree.Stmt.TheVariants as stmt;
ghost use Rattle.strc_work_meaning.specs.declared.types.ValueType.{ValueType as Kind};
ghost use Rattle.strc_work_meaning.specs.declared.types.ValueType.TheVariants.{Boolean};
ghost use Rattle.strc_work_meaning.specs.Typing as typing;
ghost use Rattle.strc_work_rules.specs.Resolution as judged;
ghost use Rattle.strc_work_rules.specs.RefusedPlaces.{Stands, place_in, stmt_place, block_place};
ghost use Rattle.strc_work_rules.specs.RefusedPlaces.{for_place};
ghost use Rattle.strc_work_rules.specs.Verdicts.{IsVerdict, context_of, Statements, VariableList};

use crate::context::{self, Context};
use crate::error::LowerError;
use crate::kept::{accept_node, push_next};
use crate::site::Mismatch;
use crate::{expression_rules, signatures, type_rules, writes};
use std::alloc::Global;
use strc_lex_names::name::Name;
use strc_lex_names::place::Span;
use strc_parse_tree::node;
use strc_parse_tree::tree::{AssignOperator, Expr, Stmt, Variable, Variables};
use strc_work_meaning::typed_scope::TypedScope;
use strc_work_meaning::types::{self, ValueType};

/// The statements of a block in a scope of its own, among the names outside it.
#[cycle(statement)]
pub(crate) fn resolve_block(
    alloc: Global,
    context: &Context,
    names: &mut TypedScope,
    here: &mut Option<Span>,
    block: &[Stmt],
) -> Result<Vec<Stmt>, LowerError>
    ensures verdict { IsVerdict (λ (block : Statements). block_view block.items)
        (judged.body_resolved (context_of context.now) names.old (block_view block.now))
        result }
    ensures names { OnOk result (names.new ≡ names.old) }
    ensures here { Stands result (block_place (context_of context.now) names.old
        (length names.old) here.old block.now) here.old here.new }
{
    let start = names.len();
    let mut resolved = Vec::new(alloc);
    for inner in block {
        let next = resolve_stmt(alloc, context, names, here, start, inner);
        push_next(&mut resolved, next)?;
    }
    names.leave(start);
    Ok(resolved)
}

/// A statement, among the names that can be seen; those of its own block are from `start` on.
#[cycle(statement)]
pub(crate) fn resolve_stmt(
    alloc: Global,
    context: &Context,
    names: &mut TypedScope,
    here: &mut Option<Span>,
    start: usize,
    statement: &Stmt,
) -> Result<Stmt, LowerError>
    ensures verdict { IsVerdict stmt_view
        (judged.stmt_resolved (context_of context.now) names.old start (stmt_view statement.now))
        result }
    ensures names { OnOk result (names.new ≡ typing.names_after names.old
        (stmt_view statement.now)) }
    ensures here { Stands result (stmt_place (context_of context.now) names.old start here.old
        statement.now) here.old here.new }
{
    match statement {
        Stmt::Empty => Ok(Stmt::Empty),
        Stmt::Compose(_) => Err(LowerError::mismatch(Mismatch::StreamStatement)),
        Stmt::Block(body) => {
            let body = resolve_block(alloc, context, names, here, body)?;
            Ok(Stmt::Block(body))
        }
        Stmt::Declare(declared) => resolve_declared(alloc, context, names, start, declared),
        Stmt::Evaluate(value) => {
            let value = expression_rules::resolve_evaluated(alloc, context, names, value)?;
            Ok(Stmt::Evaluate(value))
        }
        Stmt::Assign(name, operator, value) => {
            resolve_assigned(alloc, context, names, name, *operator, value)
        }
        Stmt::AssignElement(name, index, operator, value) => {
            resolve_element(alloc, context, names, name, index, *operator, value)
        }
        Stmt::If(condition, chosen) => resolve_if(alloc, context, names, here, condition, chosen),
        Stmt::IfElse(condition, chosen, other) => {
            resolve_if_else(alloc, context, names, here, condition, chosen, other)
        }
        Stmt::While(condition, body) => resolve_while(alloc, context, names, here, condition, body),
        Stmt::For(first, condition, step, body) => {
            resolve_for(alloc, context, names, here, first, condition, step, body)
        }
        Stmt::Push(value) => { Ok(Stmt::Push(check_pushed(alloc, context, names, value)?)) }
        Stmt::Print(value) => { Ok(Stmt::Print(check_printed(alloc, context, names, value)?)) }
        Stmt::Println(value) => { Ok(Stmt::Println(check_printed(alloc, context, names, value)?)) }
        Stmt::Return(value) => { Ok(Stmt::Return(resolve_returned(alloc, context, names, value)?)) }
        Stmt::Placed(place, inner) => {
            let around = *here;
            *here = Some(*place);
            let statement = resolve_stmt(alloc, context, names, here, start, inner)?;
            *here = around;
            accept_node(node::placed_of(alloc, *place, statement))
        }
    }
}

/// A statement in a scope of its own, among the names outside it.
#[cycle(statement)]
#[tactic(auto, using(crate::proofs::TypedGrowth::drop_own))]
fn resolve_inside(
    alloc: Global,
    context: &Context,
    names: &mut TypedScope,
    here: &mut Option<Span>,
    statement: &Stmt,
) -> Result<Stmt, LowerError>
    ensures verdict { IsVerdict stmt_view
        (judged.stmt_resolved (context_of context.now) names.old (length names.old)
        (stmt_view statement.now))
        result }
    ensures names { OnOk result (names.new ≡ names.old) }
    ensures here { Stands result (stmt_place (context_of context.now) names.old (length names.old)
        here.old statement.now) here.old here.new }
{
    let start = names.len();
    let resolved = resolve_stmt(alloc, context, names, here, start, statement);
    names.leave(start);
    resolved
}

/// A branch without another one.
#[cycle(statement)]
fn resolve_if(
    alloc: Global,
    context: &Context,
    names: &mut TypedScope,
    here: &mut Option<Span>,
    condition: &Expr,
    chosen: &Stmt,
) -> Result<Stmt, LowerError>
    ensures verdict { IsVerdict stmt_view
        (judged.stmt_resolved (context_of context.now) names.old (length names.old)
        (tree.If (expr_view condition.now) (stmt_view chosen.now)))
        result }
    ensures names { OnOk result (names.new ≡ names.old) }
    ensures here { Stands result
        (place_in (judged.expr_as (context_of context.now) names.old Boolean
        (expr_view condition.now)) here.old
        (stmt_place (context_of context.now) names.old (length names.old) here.old chosen.now))
        here.old here.new }
{
    let condition = resolve_condition(alloc, context, names, condition)?;
    let chosen = resolve_inside(alloc, context, names, here, chosen)?;
    accept_node(node::if_of(alloc, condition, chosen))
}

/// Two branches.
#[cycle(statement)]
fn resolve_if_else(
    alloc: Global,
    context: &Context,
    names: &mut TypedScope,
    here: &mut Option<Span>,
    condition: &Expr,
    chosen: &Stmt,
    other: &Stmt,
) -> Result<Stmt, LowerError>
    ensures verdict { IsVerdict stmt_view
        (judged.stmt_resolved (context_of context.now) names.old (length names.old)
        (tree.IfElse (expr_view condition.now) (stmt_view chosen.now) (stmt_view other.now)))
        result }
    ensures names { OnOk result (names.new ≡ names.old) }
    ensures here { Stands result
        (place_in (judged.expr_as (context_of context.now) names.old Boolean
        (expr_view condition.now)) here.old
        (place_in (judged.stmt_resolved (context_of context.now) names.old (length names.old)
        (stmt_view chosen.now))
        (stmt_place (context_of context.now) names.old (length names.old) here.old chosen.now)
        (stmt_place (context_of context.now) names.old (length names.old) here.old other.now)))
        here.old here.new }
{
    let condition = resolve_condition(alloc, context, names, condition)?;
    let chosen = resolve_inside(alloc, context, names, here, chosen)?;
    let other = resolve_inside(alloc, context, names, here, other)?;
    accept_node(node::if_else_of(alloc, condition, chosen, other))
}

/// A loop with a condition alone.
#[cycle(statement)]
fn resolve_while(
    alloc: Global,
    context: &Context,
    names: &mut TypedScope,
    here: &mut Option<Span>,
    condition: &Expr,
    body: &Stmt,
) -> Result<Stmt, LowerError>
    ensures verdict { IsVerdict stmt_view
        (judged.stmt_resolved (context_of context.now) names.old (length names.old)
        (tree.While (expr_view condition.now) (stmt_view body.now)))
        result }
    ensures names { OnOk result (names.new ≡ names.old) }
    ensures here { Stands result
        (place_in (judged.expr_as (context_of context.now) names.old Boolean
        (expr_view condition.now)) here.old
        (stmt_place (context_of context.now) names.old (length names.old) here.old body.now))
        here.old here.new }
{
    let condition = resolve_condition(alloc, context, names, condition)?;
    let body = resolve_inside(alloc, context, names, here, body)?;
    accept_node(node::while_of(alloc, condition, body))
}

/// A loop with a heading, whose variables are seen up to the loop's end.
#[cycle(statement)]
#[tactic(auto, using(crate::proofs::TypedGrowth::drop_own))]
fn resolve_for(
    alloc: Global,
    context: &Context,
    names: &mut TypedScope,
    here: &mut Option<Span>,
    first: &Stmt,
    condition: &Option<Expr>,
    step: &Stmt,
    body: &Stmt,
) -> Result<Stmt, LowerError>
    ensures verdict { IsVerdict stmt_view
        (judged.stmt_resolved (context_of context.now) names.old (length names.old)
        (tree.For (stmt_view first.now) (option_map expr_view condition.now) (stmt_view step.now)
        (stmt_view body.now)))
        result }
    ensures names { OnOk result (names.new ≡ names.old) }
    ensures here { Stands result (for_place (context_of context.now) names.old here.old first.now
        (option_map expr_view condition.now) step.now body.now) here.old here.new }
{
    let outside = names.len();
    let first = resolve_stmt(alloc, context, names, here, outside, first)?;
    let kind = ValueType::Boolean;
    let condition = expression_rules::resolve_initial(alloc, context, names, kind, condition)?;
    let step = resolve_inside(alloc, context, names, here, step)?;
    let body = resolve_inside(alloc, context, names, here, body)?;
    names.leave(outside);
    accept_node(node::for_of(alloc, first, condition, step, body))
}

/// A condition, whose value is a truth.
fn resolve_condition(
    alloc: Global,
    context: &Context,
    names: &TypedScope,
    condition: &Expr,
) -> Result<Expr, LowerError>
    ensures { IsVerdict expr_view
        (judged.expr_as (context_of context.now) names.now Boolean (expr_view condition.now))
        result }
{
    expression_rules::resolve_as(alloc, context, names, ValueType::Boolean, condition)
}

/// A number that is pushed, where that may be.
fn check_pushed(
    alloc: Global,
    context: &Context,
    names: &TypedScope,
    value: &Expr,
) -> Result<Expr, LowerError>
    ensures { IsVerdict expr_view
        (judged.given_resolved (context_of context.now) names.now context.now.pushes
        (expr_view value.now))
        result }
{
    if !context.pushes {
        return Err(context::no_flow(context, Mismatch::NoOutput));
    }
    expression_rules::resolve_as(alloc, context, names, ValueType::Int, value)
}

/// A number that is printed, where that may be.
fn check_printed(
    alloc: Global,
    context: &Context,
    names: &TypedScope,
    value: &Expr,
) -> Result<Expr, LowerError>
    ensures { IsVerdict expr_view
        (judged.given_resolved (context_of context.now) names.now context.now.prints
        (expr_view value.now))
        result }
{
    if !context.prints {
        return Err(context::no_flow(context, Mismatch::NoPrinting));
    }
    expression_rules::resolve_as(alloc, context, names, ValueType::Int, value)
}

/// What is returned from a helper function, if this is in one.
fn resolve_returned(
    alloc: Global,
    context: &Context,
    names: &TypedScope,
    value: &Option<Expr>,
) -> Result<Option<Expr>, LowerError>
    ensures { IsVerdict (option_map expr_view)
        (judged.returned (context_of context.now) names.now context.now.returns
        (option_map expr_view value.now))
        result }
{
    match context.returns {
        None => Err(LowerError::mismatch(Mismatch::NoHelper)),
        Some(kind) => {
            let kind = signatures::given_type(kind);
            resolve_answer(alloc, context, names, kind, value)
        }
    }
}

/// What is returned where this type is wanted, if a value is.
fn resolve_answer(
    alloc: Global,
    context: &Context,
    names: &TypedScope,
    wanted: Option<ValueType>,
    value: &Option<Expr>,
) -> Result<Option<Expr>, LowerError>
    ensures { IsVerdict (option_map expr_view)
        (judged.returned_as (context_of context.now) names.now wanted
        (option_map expr_view value.now))
        result }
{
    match (wanted, value) {
        (None, None) => Ok(None),
        (None, Some(_)) => Err(LowerError::mismatch(Mismatch::ValueUnwanted)),
        (Some(_), None) => Err(LowerError::mismatch(Mismatch::ValueMissing)),
        (Some(kind), Some(_)) => {
            expression_rules::resolve_initial(alloc, context, names, kind, value)
        }
    }
}

/// An assignment to a variable.
pub fn resolve_assigned(
    alloc: Global,
    context: &Context,
    names: &TypedScope,
    name: &Name,
    operator: AssignOperator,
    value: &Expr,
) -> Result<Stmt, LowerError>
    ensures { IsVerdict stmt_view
        (judged.assign_resolved (context_of context.now) names.now name.now operator
        (expr_view value.now))
        result }
{
    let kind = writes::resolve_written(context, names, name)?;
    let kind = assigned_type(operator, kind)?;
    let value = expression_rules::resolve_as(alloc, context, names, kind, value)?;
    let name = name.copy()?;
    Ok(Stmt::Assign(name, operator, value))
}

/// An assignment to an element of an array.
pub fn resolve_element(
    alloc: Global,
    context: &Context,
    names: &TypedScope,
    name: &Name,
    index: &Expr,
    operator: AssignOperator,
    value: &Expr,
) -> Result<Stmt, LowerError>
    ensures { IsVerdict stmt_view
        (judged.element_assign_resolved (context_of context.now) names.now name.now
        (expr_view index.now) operator
        (expr_view value.now))
        result }
{
    let name = writes::resolve_array(context, names, name)?;
    let index = expression_rules::resolve_as(alloc, context, names, ValueType::Int, index)?;
    let value = expression_rules::resolve_as(alloc, context, names, ValueType::Int, value)?;
    Ok(Stmt::AssignElement(name, index, operator, value))
}

/// The type of what is assigned to a variable of this type.
fn assigned_type(operator: AssignOperator, kind: ValueType) -> Result<ValueType, LowerError>
    ensures { IsVerdict (λ (kind : Kind). kind) (judged.assigned_type operator kind) result }
{
    match operator {
        AssignOperator::Set => Ok(kind),
        AssignOperator::Add
        | AssignOperator::Subtract
        | AssignOperator::Multiply
        | AssignOperator::Divide
        | AssignOperator::Remainder => {
            if !types::same_type(kind, ValueType::Int) {
                return Err(LowerError::mismatch(Mismatch::Value(ValueType::Int, kind)));
            }
            Ok(kind)
        }
    }
}

/// A declaration of variables of one type.
fn resolve_declared(
    alloc: Global,
    context: &Context,
    names: &mut TypedScope,
    start: usize,
    declared: &Variables,
) -> Result<Stmt, LowerError>
    ensures verdict { IsVerdict stmt_view
        (judged.stmt_resolved (context_of context.now) names.old start
        (stmt_view (stmt.Declare declared.now)))
        result }
    ensures names { OnOk result
        (names.new ≡ typing.names_after names.old (stmt_view (stmt.Declare declared.now))) }
{
    let resolved = type_rules::resolve_type(alloc, context.constants, names, &declared.kind)?;
    let kind = resolved.kind;
    let variables = resolve_variables(alloc, context, names, start, kind, &declared.variables)?;
    Ok(Stmt::Declare(Variables {
        kind: resolved.written,
        variables,
        place: declared.place,
    }))
}

/// The variables of a declaration, each seen by those after it.
fn resolve_variables(
    alloc: Global,
    context: &Context,
    names: &mut TypedScope,
    start: usize,
    kind: ValueType,
    variables: &[Variable],
) -> Result<Vec<Variable>, LowerError>
    ensures verdict { IsVerdict (λ (resolved : VariableList). map variable_view resolved.items)
        (judged.variables_resolved (context_of context.now) names.old start kind
        (map variable_view variables.now))
        result }
    ensures names { OnOk result
        (names.new ≡ typing.with_declared names.old kind (map variable_view variables.now)) }
{
    let mut resolved = Vec::new(alloc);
    for variable in variables {
        let next = resolve_variable(alloc, context, names, start, kind, variable);
        push_next(&mut resolved, next)?;
    }
    Ok(resolved)
}

/// Whether a name is taken in a block. No name of a text is empty: that is the name of a helper
/// function's answer.
pub(crate) fn is_taken(names: &TypedScope, start: usize, name: &Name) -> bool
    ensures { result ≡ judged.is_taken names.now start name.now }
{
    name.as_bytes().is_empty() || names.has_since(start, name)
}

/// A variable, whose name no other one of its block has.
fn resolve_variable(
    alloc: Global,
    context: &Context,
    names: &mut TypedScope,
    start: usize,
    kind: ValueType,
    variable: &Variable,
) -> Result<Variable, LowerError>
    ensures verdict { IsVerdict variable_view
        (judged.local_resolved (context_of context.now) names.old start kind
        (variable_view variable.now))
        result }
    ensures names { OnOk result (names.new ≡ record { 0 = variable.now.name; 1 = kind }
        ∷ names.old) }
{
    if is_taken(names, start, &variable.name) {
        let twice = LowerError::mismatch(Mismatch::DeclaredTwice);
        return Err(twice.or_at(variable.name.place()));
    }
    let initial = expression_rules::resolve_initial(
        alloc,
        context,
        names,
        kind,
        &variable.initial,
    )?;
    names.declare(&variable.name, kind)?;
    let name = variable.name.copy()?;
    Ok(Variable { name, initial })
}
