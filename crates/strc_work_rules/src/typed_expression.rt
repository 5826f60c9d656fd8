// Expressions with the types of their values.

ghost use Rattle.std.specs.Prelude.{◌≡◌};
ghost use Rattle.strc_parse_tree.specs.View.{expr_view};
ghost use Rattle.strc_work_rules.specs.Resolution as judged;
ghost use Rattle.strc_work_meaning.specs.declared.types.ValueType.TheVariants.{Int};
ghost use Rattle.strc_work_rules.specs.Verdicts.{IsVerdict, called_view, typed_view};

use crate::context::{self, Context};
use crate::error::LowerError;
use crate::signatures;
use crate::site::Mismatch;
use std::alloc::Global;
use strc_lex_names::name::Name;
use strc_parse_tree::node;
use strc_parse_tree::operator::{Operator, Origin};
use strc_parse_tree::tree::{BinaryOperator, Expr, HelperType, StepOperator, UnaryOperator};
use strc_work_meaning::types::{self, ValueType};

/// An expression with its constants substituted, and the type of its value.
#[derive(Drop)]
pub struct Typed {
    pub kind: ValueType,
    pub value: Expr,
}

/// A call with its constants substituted, and what it gives.
#[derive(Drop)]
pub struct Called {
    pub kind: HelperType,
    pub call: Expr,
}

/// What a call gives, as a value.
pub fn value_called(called: Called) -> Result<Typed, LowerError>
    ensures { IsVerdict typed_view (judged.called_typed (called_view called)) result }
{
    match signatures::given_type(called.kind) {
        Some(kind) => Ok(Typed {
            kind,
            value: called.call,
        }),
        None => Err(LowerError::mismatch(Mismatch::NothingGiven)),
    }
}

/// An expression whose value is a number.
pub fn number(value: Expr) -> Typed
    ensures { typed_view result ≡ record { kind = Int; value = expr_view value } }
{
    Typed {
        kind: ValueType::Int,
        value,
    }
}

/// The expression, if its value has the type.
pub fn expect_type(kind: ValueType, typed: Typed) -> Result<Expr, LowerError>
    ensures { IsVerdict expr_view (judged.expect_type kind (typed_view typed)) result }
{
    if !types::same_type(typed.kind, kind) {
        return Err(LowerError::mismatch(Mismatch::Value(kind, typed.kind)));
    }
    Ok(typed.value)
}

/// An expression in brackets.
pub fn group(alloc: Global, inner: Typed) -> Result<Typed, LowerError>
    ensures { IsVerdict typed_view (Ok (judged.group_typed (typed_view inner))) result }
{
    Ok(Typed {
        kind: inner.kind,
        value: Expr::Group(Box::new(alloc, inner.value)?),
    })
}

/// A look at an item, where one may pop.
pub fn peek(
    alloc: Global,
    context: &Context,
    origin: Origin,
    index: Typed,
) -> Result<Typed, LowerError>
    ensures { IsVerdict typed_view (judged.peek_typed context.now.pops (typed_view index)) result }
{
    if !context.pops {
        return Err(context::no_flow(context, Mismatch::NoInput));
    }
    let index = expect_type(ValueType::Int, index)?;
    Ok(Typed {
        kind: ValueType::Int,
        value: Expr::Peek(origin, Box::new(alloc, index)?),
    })
}

/// An element of an array.
pub fn element(alloc: Global, name: Name, index: Typed) -> Result<Typed, LowerError>
    ensures { IsVerdict typed_view (judged.element_typed name (typed_view index)) result }
{
    let index = expect_type(ValueType::Int, index)?;
    Ok(Typed {
        kind: ValueType::Int,
        value: Expr::Element(name, Box::new(alloc, index)?),
    })
}

/// A step of an element.
pub fn step_element(
    alloc: Global,
    operator: StepOperator,
    name: Name,
    index: Typed,
) -> Result<Typed, LowerError>
    ensures { IsVerdict typed_view (judged.step_element_typed operator name
        (typed_view index)) result }
{
    let index = expect_type(ValueType::Int, index)?;
    Ok(Typed {
        kind: ValueType::Int,
        value: Expr::StepElement(operator, name, Box::new(alloc, index)?),
    })
}

/// An operator before its operand.
pub fn unary(alloc: Global, operator: UnaryOperator, operand: Typed) -> Result<Typed, LowerError>
    ensures { IsVerdict typed_view (judged.unary_typed operator (typed_view operand)) result }
{
    let kind = operand_type(operator);
    let operand = expect_type(kind, operand)?;
    Ok(Typed {
        kind,
        value: Expr::Unary(operator, Box::new(alloc, operand)?),
    })
}

/// An operator between its operands.
pub fn binary(
    alloc: Global,
    operator: Operator,
    left: Typed,
    right: Typed,
) -> Result<Typed, LowerError>
    ensures { IsVerdict typed_view
        (judged.binary_typed operator (typed_view left) (typed_view right))
        result }
{
    let kind = operator.kind();
    let sides = sides_type(kind, left.kind);
    let left = expect_type(sides, left)?;
    let right = expect_type(sides, right)?;
    Ok(Typed {
        kind: binary_type(kind),
        value: node::binary_of(alloc, operator, left, right)?,
    })
}

/// A choice between two values of one type.
pub fn conditional(
    alloc: Global,
    condition: Typed,
    chosen: Typed,
    other: Typed,
) -> Result<Typed, LowerError>
    ensures { IsVerdict typed_view
        (judged.conditional_typed (typed_view condition) (typed_view chosen) (typed_view other))
        result }
{
    let condition = expect_type(ValueType::Boolean, condition)?;
    let kind = chosen.kind;
    let other = expect_type(kind, other)?;
    Ok(Typed {
        kind,
        value: node::conditional_of(alloc, condition, chosen.value, other)?,
    })
}

/// The type of an operator's operand, and of its value.
fn operand_type(operator: UnaryOperator) -> ValueType
    ensures { result ≡ judged.operand_type operator }
{
    match operator {
        UnaryOperator::Not => ValueType::Boolean,
        UnaryOperator::Negate | UnaryOperator::Complement => ValueType::Int,
    }
}

/// The type of both operands, where the left one has this type.
fn sides_type(operator: BinaryOperator, left: ValueType) -> ValueType
    ensures { result ≡ judged.sides_type operator left }
{
    match operator {
        BinaryOperator::LogicalOr | BinaryOperator::LogicalAnd => ValueType::Boolean,
        BinaryOperator::Equal | BinaryOperator::NotEqual => left,
        _ => ValueType::Int,
    }
}

/// The type of an operator's value.
fn binary_type(operator: BinaryOperator) -> ValueType
    ensures { result ≡ judged.binary_type operator }
{
    match operator {
        BinaryOperator::LogicalOr
        | BinaryOperator::LogicalAnd
        | BinaryOperator::Equal
        | BinaryOperator::NotEqual
        | BinaryOperator::Less
        | BinaryOperator::LessOrEqual
        | BinaryOperator::Greater
        | BinaryOperator::GreaterOrEqual => ValueType::Boolean,
        _ => ValueType::Int,
    }
}
