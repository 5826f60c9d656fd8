// Small parts of lowering: slots, operators, and what expressions change.

ghost use Rattle.std.specs.Prelude.{◌≡◌, ◌+◌, ◌^◌, ◌<◌, IfOk, IsOk};
ghost use Rattle.strc_parse_tree.specs.View.{expr_view, type_view};
ghost use Rattle.strc_work_meaning.specs.Scoping as scoping;
ghost use Rattle.strc_work_code.specs.Nodes.{End};
ghost use Rattle.strc_work_code.specs.Code.{spelled};
ghost use Rattle.strc_work_code.specs.Lowering as spec;
ghost use Rattle.strc_work_lowering.specs.Emission.{compound_of};

use crate::layout::Layout;
use std::alloc::Global;
use strc_lex_names::memory::NoMemory;
use strc_parse_tree::tree::{
    AssignOperator, BinaryOperator, Expr, StepOperator, UnaryOperator, VariableType,
};
use strc_work_code::inst::Inst;

/// How many cells a variable of a type has. The length of an array is a number: constants are
/// substituted.
pub fn cells_of(kind: &VariableType) -> u32
    ensures { result ≡ scoping.cells_of (type_view kind.now) }
{
    match kind {
        VariableType::Boolean | VariableType::Int => 1,
        VariableType::Array(length) => match length {
            Expr::Number(length) if *length >= 0 => *length as u32,
            _ => 0,
        },
    }
}

/// The slot so many after a slot. An instruction names slots by 32 bits. Where that slot is past
/// them, memory for all slots up to it, at least 16 GiB, is asked for, as a start would ask for it.
pub fn slot_past(alloc: Global, slot: u32, count: u32) -> Result<u32, NoMemory>
    ensures slot { IfOk result (λ next. next ≡ slot + count) }
    ensures enough { slot + count < 2 ^ 32 → IsOk result }
{
    if let Some(next) = slot.checked_add(count) {
        return Ok(next);
    }
    // Where so much is granted, still no instruction can name the slot.
    let _slots: Vec<i32> = Vec::with_capacity(alloc, slot as usize + count as usize)?;
    Err(NoMemory)
}

/// The slot of an expression that is a variable, in brackets or not.
pub fn variable_slot(names: &Layout, value: &Expr) -> Option<u32>
    ensures { result ≡ spec.variable_slot names.now (expr_view value.now) }
{
    match value {
        Expr::Read(name) => Some(names.slot_of(name)),
        Expr::Group(inner) => variable_slot(names, inner),
        Expr::Number(_)
        | Expr::Truth(_)
        | Expr::Element(_, _)
        | Expr::Pop
        | Expr::Peek(_, _)
        | Expr::Call(_, _)
        | Expr::Unary(_, _)
        | Expr::Step(_, _)
        | Expr::StepElement(_, _, _)
        | Expr::Binary(_, _, _)
        | Expr::Conditional(_, _, _) => None,
    }
}

/// Whether an expression changes no variable.
pub fn writes_no_variable(value: &Expr) -> bool
    ensures { result ≡ spec.writes_no_variable (expr_view value.now) }
{
    match value {
        Expr::Number(_) | Expr::Truth(_) | Expr::Read(_) | Expr::Pop => true,
        Expr::Element(_, index) | Expr::Peek(_, index) => writes_no_variable(index),
        Expr::Group(inner) => writes_no_variable(inner),
        Expr::Unary(_, operand) => writes_no_variable(operand),
        Expr::Call(_, _) | Expr::Step(_, _) | Expr::StepElement(_, _, _) => false,
        Expr::Binary(_, left, right) => writes_no_variable(left) && writes_no_variable(right),
        Expr::Conditional(condition, chosen, other) => {
            writes_no_variable(condition) && writes_no_variable(chosen) && writes_no_variable(other)
        }
    }
}

/// The operator of a compound assignment.
pub fn compound_operator(operator: AssignOperator) -> Option<BinaryOperator>
    ensures { result ≡ compound_of operator }
{
    match operator {
        AssignOperator::Set => None,
        AssignOperator::Add => Some(BinaryOperator::Add),
        AssignOperator::Subtract => Some(BinaryOperator::Subtract),
        AssignOperator::Multiply => Some(BinaryOperator::Multiply),
        AssignOperator::Divide => Some(BinaryOperator::Divide),
        AssignOperator::Remainder => Some(BinaryOperator::Remainder),
    }
}

/// What a step operator adds.
pub fn step_amount(operator: StepOperator) -> i32
    ensures { result ≡ spec.step_amount operator }
{
    match operator {
        StepOperator::IncrementFirst | StepOperator::IncrementAfter => 1,
        StepOperator::DecrementFirst | StepOperator::DecrementAfter => -1,
    }
}

/// The step that puts 0 into so many slots.
pub fn zeros_step(into: u32, cells: u32) -> Inst
    ensures step { result ≡ spec.zeros_step into cells }
    ensures alone { spelled result End ≡ spec.one result }
{
    if cells == 1 {
        Inst::Const(into, 0)
    } else {
        Inst::Clear(into, cells)
    }
}

/// Which value a step has: the new one, or the old one.
pub fn step_result(operator: StepOperator, old: u32, new: u32) -> u32
    ensures { result ≡ spec.step_result operator old new }
{
    match operator {
        StepOperator::IncrementFirst | StepOperator::DecrementFirst => new,
        StepOperator::IncrementAfter | StepOperator::DecrementAfter => old,
    }
}

/// The step of an operator before its operand.
pub fn unary_step(operator: UnaryOperator, into: u32, from: u32) -> Inst
    ensures step { result ≡ spec.unary_step operator into from }
    ensures alone { spelled result End ≡ spec.one result }
{
    match operator {
        UnaryOperator::Negate => Inst::Negate(into, from),
        UnaryOperator::Not => Inst::Not(into, from),
        UnaryOperator::Complement => Inst::Complement(into, from),
    }
}

/// The step of an operator between its operands, where both are evaluated first.
pub fn binary_step(operator: BinaryOperator, into: u32, left: u32, right: u32) -> Inst
    ensures step { result ≡ spec.binary_step operator into left right }
    ensures alone { spelled result End ≡ spec.one result }
{
    match operator {
        BinaryOperator::LogicalOr | BinaryOperator::LogicalAnd => Inst::Copy(into, right),
        BinaryOperator::Or => Inst::Or(into, left, right),
        BinaryOperator::ExclusiveOr => Inst::ExclusiveOr(into, left, right),
        BinaryOperator::And => Inst::And(into, left, right),
        BinaryOperator::Equal => Inst::Equal(into, left, right),
        BinaryOperator::NotEqual => Inst::NotEqual(into, left, right),
        BinaryOperator::Less => Inst::Less(into, left, right),
        BinaryOperator::LessOrEqual => Inst::LessOrEqual(into, left, right),
        BinaryOperator::Greater => Inst::Less(into, right, left),
        BinaryOperator::GreaterOrEqual => Inst::LessOrEqual(into, right, left),
        BinaryOperator::ShiftLeft => Inst::ShiftLeft(into, left, right),
        BinaryOperator::ShiftRight => Inst::ShiftRight(into, left, right),
        BinaryOperator::Add => Inst::Add(into, left, right),
        BinaryOperator::Subtract => Inst::Subtract(into, left, right),
        BinaryOperator::Multiply => Inst::Multiply(into, left, right),
        BinaryOperator::Divide => Inst::Divide(into, left, right, 0),
        BinaryOperator::Remainder => Inst::Remainder(into, left, right, 0),
    }
}
