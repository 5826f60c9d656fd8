// The rules on names and types of expressions.

ghost use Rattle.std.specs.Prelude.{◌≡◌};
ghost use Rattle.std.specs.Option.{option_map};
ghost use Rattle.strc_parse_tree.specs.View.{expr_view, listed_view};
ghost use Rattle.strc_parse_tree.specs.declared.tree.HelperType.{HelperType as HelperKind};
ghost use Rattle.strc_work_rules.specs.Resolution as judged;
ghost use Rattle.strc_work_rules.specs.Verdicts.{IsVerdict, context_of, called_view, typed_view};
ghost use Rattle.strc_work_rules.specs.Verdicts.{ExprList};

use crate::context::{self, Context};
use crate::error::LowerError;
use crate::kept::push_next;
use crate::site::Mismatch;
use crate::typed_expression::{self, Called, Typed};
use crate::writes;
use std::alloc::Global;
use strc_lex_names::name::Name;
use strc_parse_tree::tree::{Expr, HelperType};
use strc_work_meaning::typed_scope::TypedScope;
use strc_work_meaning::types::{self, ValueType};

/// An expression, among these names of variables.
#[cycle(expression)]
pub fn resolve_expr(
    alloc: Global,
    context: &Context,
    names: &TypedScope,
    value: &Expr,
) -> Result<Typed, LowerError>
    ensures { IsVerdict typed_view
        (judged.expr_resolved (context_of context.now) names.now (expr_view value.now))
        result }
{
    match value {
        Expr::Number(number) => Ok(typed_expression::number(Expr::Number(*number))),
        Expr::Truth(truth) => Ok(Typed {
            kind: ValueType::Boolean,
            value: Expr::Truth(*truth),
        }),
        Expr::Read(name) => resolve_name(context, names, name),
        Expr::Element(name, index) => {
            let name = writes::resolve_array(context, names, name)?;
            let index = resolve_expr(alloc, context, names, index)?;
            typed_expression::element(alloc, name, index)
        }
        Expr::Pop => {
            if !context.pops {
                return Err(context::no_flow(context, Mismatch::NoInput));
            }
            Ok(typed_expression::number(Expr::Pop))
        }
        Expr::Peek(origin, index) => {
            let index = resolve_expr(alloc, context, names, index)?;
            typed_expression::peek(alloc, context, origin.copy(), index)
        }
        Expr::Call(name, arguments) => {
            let called = resolve_call(alloc, context, names, name, arguments)?;
            typed_expression::value_called(called)
        }
        Expr::Group(inner) => {
            let inner = resolve_expr(alloc, context, names, inner)?;
            typed_expression::group(alloc, inner)
        }
        Expr::Unary(operator, operand) => {
            let operand = resolve_expr(alloc, context, names, operand)?;
            typed_expression::unary(alloc, *operator, operand)
        }
        Expr::Step(operator, name) => {
            let name = writes::resolve_stepped(context, names, name)?;
            Ok(typed_expression::number(Expr::Step(*operator, name)))
        }
        Expr::StepElement(operator, name, index) => {
            let name = writes::resolve_array(context, names, name)?;
            let index = resolve_expr(alloc, context, names, index)?;
            typed_expression::step_element(alloc, *operator, name, index)
        }
        Expr::Binary(operator, left, right) => {
            let left = resolve_expr(alloc, context, names, left)?;
            let right = resolve_expr(alloc, context, names, right)?;
            typed_expression::binary(alloc, operator.copy(), left, right)
        }
        Expr::Conditional(condition, chosen, other) => {
            let condition = resolve_expr(alloc, context, names, condition)?;
            let chosen = resolve_expr(alloc, context, names, chosen)?;
            let other = resolve_expr(alloc, context, names, other)?;
            typed_expression::conditional(alloc, condition, chosen, other)
        }
    }
}

/// A call of a helper function.
#[cycle(expression)]
fn resolve_call(
    alloc: Global,
    context: &Context,
    names: &TypedScope,
    name: &Name,
    arguments: &[Expr],
) -> Result<Called, LowerError>
    ensures { IsVerdict called_view
        (judged.call_resolved (context_of context.now) names.now name.now
        (listed_view arguments.now))
        result }
{
    let kind = called_kind(context, name, arguments.len())?;
    let arguments = resolve_arguments(alloc, context, names, arguments)?;
    let name = name.copy()?;
    Ok(Called {
        kind,
        call: Expr::Call(name, arguments),
    })
}

/// The arguments of a call, from left to right.
#[cycle(expression)]
fn resolve_arguments(
    alloc: Global,
    context: &Context,
    names: &TypedScope,
    arguments: &[Expr],
) -> Result<Vec<Expr>, LowerError>
    ensures { IsVerdict (λ (resolved : ExprList). listed_view resolved.items)
        (judged.arguments_resolved (context_of context.now) names.now (listed_view arguments.now))
        result }
{
    let mut resolved = Vec::new(alloc);
    for argument in arguments {
        let next = resolve_as(alloc, context, names, ValueType::Int, argument);
        push_next(&mut resolved, next)?;
    }
    Ok(resolved)
}

/// What a helper function of this name gives, that takes so many arguments, where calls may stand.
fn called_kind(context: &Context, name: &Name, count: usize) -> Result<HelperType, LowerError>
    ensures { IsVerdict (λ (kind : HelperKind). kind)
        (judged.called_among name.now count (context_of context.now).helpers)
        result }
{
    let refusal = match context.helpers {
        None => LowerError::mismatch(Mismatch::NoCalls),
        Some(helpers) => match helpers.value_of(name) {
            None => LowerError::unknown(name.copy()?),
            Some(signature) => {
                if signature.parameters == count {
                    return Ok(signature.kind);
                }
                LowerError::bad_arguments()
            }
        },
    };
    Err(refusal.or_at(name.place()))
}

/// An expression that is a statement: a call may give nothing there.
pub fn resolve_evaluated(
    alloc: Global,
    context: &Context,
    names: &TypedScope,
    value: &Expr,
) -> Result<Expr, LowerError>
    ensures { IsVerdict expr_view
        (judged.evaluated (context_of context.now) names.now (expr_view value.now))
        result }
{
    if let Expr::Call(name, arguments) = value {
        let called = resolve_call(alloc, context, names, name, arguments)?;
        return Ok(called.call);
    }
    let typed = resolve_expr(alloc, context, names, value)?;
    Ok(typed.value)
}

/// An expression of this type.
#[cycle(expression)]
pub fn resolve_as(
    alloc: Global,
    context: &Context,
    names: &TypedScope,
    kind: ValueType,
    value: &Expr,
) -> Result<Expr, LowerError>
    ensures { IsVerdict expr_view
        (judged.expr_as (context_of context.now) names.now kind (expr_view value.now))
        result }
{
    let value = resolve_expr(alloc, context, names, value)?;
    typed_expression::expect_type(kind, value)
}

/// An initialiser or a condition of this type, where there is one.
pub fn resolve_initial(
    alloc: Global,
    context: &Context,
    names: &TypedScope,
    kind: ValueType,
    initial: &Option<Expr>,
) -> Result<Option<Expr>, LowerError>
    ensures { IsVerdict (option_map expr_view)
        (judged.initial_resolved (context_of context.now) names.now kind
        (option_map expr_view initial.now))
        result }
{
    match initial {
        None => Ok(None),
        Some(value) => {
            let value = resolve_as(alloc, context, names, kind, value)?;
            Ok(Some(value))
        }
    }
}

/// A name that is read: its innermost variable, which is no array, or else a constant, whose value
/// is substituted.
fn resolve_name(context: &Context, names: &TypedScope, name: &Name) -> Result<Typed, LowerError>
    ensures { IsVerdict typed_view (judged.name_resolved
        (context_of context.now) names.now name.now) result }
{
    if let Some(kind) = names.type_of(name) {
        if context.constants_only {
            return Err(LowerError::mismatch(Mismatch::VariableInConstant));
        }
        if types::is_array(kind) {
            return Err(LowerError::mismatch(Mismatch::WholeArray));
        }
        let name = name.copy()?;
        return Ok(Typed {
            kind,
            value: Expr::Read(name),
        });
    }
    match context.constants.value_of(name) {
        Some(value) => Ok(typed_expression::number(Expr::Number(value))),
        None => {
            let name = name.copy()?;
            Err(LowerError::unknown(name))
        }
    }
}
