// The code of expressions.

ghost use Rattle.std.specs.Prelude.{◌≡◌, ◌+◌, true, IfOk, OnOk};
ghost use Rattle.strc_parse_tree.specs.Tree as tree;
ghost use Rattle.strc_parse_tree.specs.View.{expr_view, listed_view};
ghost use Rattle.strc_work_meaning.specs.Scoping.{total, slot_of};
ghost use Rattle.strc_work_meaning.specs.Calls.{argument_count};
ghost use Rattle.strc_work_code.specs.Nodes.{before};
ghost use Rattle.strc_work_code.specs.Lowering as spec;
ghost use Rattle.strc_work_lowering.specs.Written.{written};
ghost use Rattle.strc_work_lowering.specs.Emission.{operator_nodes, use_nodes, truth_nodes};
ghost use Rattle.strc_work_lowering.specs.Emission.{old_slot};
ghost use Rattle.strc_work_lowering.specs.Emission.{old_nodes};
ghost use Rattle.strc_work_meaning.specs.Firing.{assigned_value};

use crate::builder::Builder;
use crate::layout::{Layout, Place};
use crate::operands::{
    binary_step, compound_operator, slot_past, step_amount, step_result, unary_step, variable_slot,
    writes_no_variable,
};
use strc_lex_names::memory::NoMemory;
use strc_lex_names::name::Name;
use strc_parse_tree::operator::{Operator, mark_of_name};
use strc_parse_tree::tree::{AssignOperator, BinaryOperator, Expr, StepOperator, UnaryOperator};
use strc_work_code::call::Call;
use strc_work_code::inst::Inst;
use strc_work_code::node::Node;
use strc_work_meaning::arithmetic::truth;

/// What is done with an operand.
#[derive(Clone, Copy)]
enum Use {
    Peek,
    Unary(UnaryOperator),
    Load(Place),
    Step(StepOperator, Place),
}

/// The code that puts an expression's value into a slot; the slots from `free` on are free.
#[cycle(expression)]
#[tactic(auto, using(strc_work_code::proofs::Nodes::before_end))]
pub fn emit_expr(
    code: &mut Builder,
    names: &Layout,
    value: &Expr,
    into: u32,
    free: u32,
) -> Result<(), NoMemory>
    ensures { OnOk result (written code.new ≡ before (written code.old)
        (spec.expr_nodes names.now (expr_view value.now) into free)) }
{
    match value {
        Expr::Number(number) => code.put(Inst::Const(into, *number)),
        Expr::Truth(value) => code.put(Inst::Const(into, truth(*value))),
        Expr::Read(name) => code.put(Inst::Copy(into, names.slot_of(name))),
        Expr::Pop => code.put(Inst::Pop(into)),
        Expr::Peek(origin, index) => {
            emit_use(code, names, Use::Peek, origin.mark(), index, into, free)
        }
        Expr::Call(name, arguments) => emit_call(code, names, name, arguments, into, free),
        Expr::Group(inner) => emit_expr(code, names, inner, into, free),
        Expr::Unary(operator, operand) => {
            emit_use(code, names, Use::Unary(*operator), 0, operand, into, free)
        }
        Expr::Step(operator, name) => emit_step(code, *operator, names.slot_of(name), into, free),
        Expr::Binary(operator, left, right) => {
            emit_binary(code, names, operator, left, right, into, free)
        }
        Expr::Conditional(condition, chosen, other) => {
            emit_conditional(code, names, condition, chosen, other, into, free)
        }
        Expr::Element(name, index) => {
            let place = Place {
                slot: names.slot_of(name),
                cells: names.size_of(name),
            };
            let mark = mark_of_name(name);
            emit_use(code, names, Use::Load(place), mark, index, into, free)
        }
        Expr::StepElement(operator, name, index) => {
            let place = Place {
                slot: names.slot_of(name),
                cells: names.size_of(name),
            };
            let mark = mark_of_name(name);
            emit_use(
                code,
                names,
                Use::Step(*operator, place),
                mark,
                index,
                into,
                free,
            )
        }
    }
}

/// The code of a call: its arguments into the first free slots, and then the call.
#[cycle(expression)]
#[tactic(auto, using(strc_work_code::proofs::Nodes::before_assoc))]
fn emit_call(
    code: &mut Builder,
    names: &Layout,
    name: &Name,
    arguments: &[Expr],
    into: u32,
    free: u32,
) -> Result<(), NoMemory>
    ensures { OnOk result (written code.new ≡ before (written code.old)
        (spec.expr_nodes names.now (tree.Call name.now (listed_view arguments.now)) into free)) }
{
    let end = emit_arguments(code, names, arguments, free)?;
    let call = Call {
        name: name.copy()?,
        first: free,
        count: end - free,
        into,
        mark: mark_of_name(name),
        place: None,
    };
    code.put_node(Node::Call(call))
}

/// The code that puts the values of arguments into slots, from `free` on, and the slot after them.
#[cycle(expression)]
fn emit_arguments(
    code: &mut Builder,
    names: &Layout,
    arguments: &[Expr],
    free: u32,
) -> Result<u32, NoMemory>
    ensures { IfOk result
        (λ end. (end ≡ free + argument_count (listed_view arguments.now))
        × (written code.new ≡ before (written code.old)
        (spec.arguments_nodes names.now (listed_view arguments.now) free))) }
{
    let mut slot = free;
    for argument in arguments {
        let next = names.after(slot)?;
        emit_expr(code, names, argument, slot, next)?;
        slot = next;
    }
    Ok(slot)
}

/// The code of an operand, and what is done with it, which is written at this mark.
#[cycle(expression)]
#[tactic(auto, using(strc_work_code::proofs::Nodes::before_assoc))]
fn emit_use(
    code: &mut Builder,
    names: &Layout,
    kind: Use,
    mark: u32,
    operand: &Expr,
    into: u32,
    free: u32,
) -> Result<(), NoMemory>
    ensures { OnOk result (written code.new ≡ before (written code.old)
        (before (spec.operand_nodes names.now true (expr_view operand.now) free)
        (use_nodes kind (spec.operand_slot names.now true (expr_view operand.now) free) into
        free))) }
{
    let from = emit_operand(code, names, operand, true, free)?;
    emit_used(code, names, kind, mark, from, into, free)
}

/// The code of an expression apart from other code, to be written beside it.
#[cycle(expression)]
fn emit_apart(names: &Layout, value: &Expr, into: u32, free: u32) -> Result<Builder, NoMemory>
    ensures { IfOk result (λ apart. written apart
        ≡ spec.expr_nodes names.now (expr_view value.now) into free) }
{
    let mut apart = Builder::new(names.allocator());
    emit_expr(&mut apart, names, value, into, free)?;
    Ok(apart)
}

/// The code of an operator between its operands.
#[cycle(expression)]
fn emit_binary(
    code: &mut Builder,
    names: &Layout,
    operator: &Operator,
    left: &Expr,
    right: &Expr,
    into: u32,
    free: u32,
) -> Result<(), NoMemory>
    ensures { OnOk result (written code.new ≡ before (written code.old)
        (spec.expr_nodes names.now (tree.Binary operator.now (expr_view left.now)
        (expr_view right.now)) into free)) }
{
    match operator.kind() {
        BinaryOperator::LogicalOr => emit_logical(code, names, true, left, right, into, free),
        BinaryOperator::LogicalAnd => emit_logical(code, names, false, left, right, into, free),
        _ => emit_operator(code, names, operator, left, right, into, free),
    }
}

/// The code of `||` and `&&`: the right side is evaluated only where the left one leaves the value
/// open.
#[cycle(expression)]
#[tactic(auto, using(strc_work_code::proofs::Nodes::before_assoc))]
fn emit_logical(
    code: &mut Builder,
    names: &Layout,
    is_or: bool,
    left: &Expr,
    right: &Expr,
    into: u32,
    free: u32,
) -> Result<(), NoMemory>
    ensures { OnOk result (written code.new ≡ before (written code.old)
        (before (spec.expr_nodes names.now (expr_view left.now) free (free + 1))
        (truth_nodes is_or free (spec.expr_nodes names.now (expr_view right.now) free (free + 1))
        into))) }
{
    let next = names.after(free)?;
    emit_expr(code, names, left, free, next)?;
    let rest = emit_apart(names, right, free, next)?;
    code.put_truth(is_or, free, rest, into)
}

/// The code of an operator between its operands, where both are evaluated first.
#[cycle(expression)]
#[tactic(auto, using(strc_work_code::proofs::Nodes::before_assoc))]
fn emit_operator(
    code: &mut Builder,
    names: &Layout,
    operator: &Operator,
    left: &Expr,
    right: &Expr,
    into: u32,
    free: u32,
) -> Result<(), NoMemory>
    ensures { OnOk result (written code.new ≡ before (written code.old)
        (operator_nodes names.now operator.now (expr_view left.now) (expr_view right.now) into
        free)) }
{
    let left = emit_operand(code, names, left, writes_no_variable(right), free)?;
    let right = emit_operand(code, names, right, true, names.after(free)?)?;
    code.put_at(
        binary_step(operator.kind(), into, left, right),
        operator.origin().mark(),
    )
}

/// The code of an expression that is one of two by a condition.
#[cycle(expression)]
#[tactic(auto, using(strc_work_code::proofs::Nodes::before_assoc))]
fn emit_conditional(
    code: &mut Builder,
    names: &Layout,
    condition: &Expr,
    chosen: &Expr,
    other: &Expr,
    into: u32,
    free: u32,
) -> Result<(), NoMemory>
    ensures { OnOk result (written code.new ≡ before (written code.old)
        (spec.expr_nodes names.now (tree.Conditional (expr_view condition.now)
        (expr_view chosen.now) (expr_view other.now)) into free)) }
{
    let slot = emit_operand(code, names, condition, true, free)?;
    let chosen = emit_apart(names, chosen, into, free)?;
    let other = emit_apart(names, other, into, free)?;
    code.put_choice(slot, chosen, other)
}

/// The code that puts an expression's value into a slot, and that slot. Where it `may_alias`, a
/// variable's value stays in its own slot.
#[cycle(expression)]
#[tactic(auto, using(strc_work_code::proofs::Nodes::before_end))]
pub fn emit_operand(
    code: &mut Builder,
    names: &Layout,
    value: &Expr,
    may_alias: bool,
    free: u32,
) -> Result<u32, NoMemory>
    ensures { IfOk result
        (λ at. (at ≡ spec.operand_slot names.now may_alias (expr_view value.now) free)
        × (written code.new ≡ before (written code.old)
        (spec.operand_nodes names.now may_alias (expr_view value.now) free))) }
{
    if may_alias {
        if let Some(slot) = variable_slot(names, value) {
            return Ok(slot);
        }
    }
    emit_expr(code, names, value, free, names.after(free)?)?;
    Ok(free)
}

/// The code of what is done with an operand that is in a slot, written at this mark.
fn emit_used(
    code: &mut Builder,
    names: &Layout,
    kind: Use,
    mark: u32,
    from: u32,
    into: u32,
    free: u32,
) -> Result<(), NoMemory>
    ensures { OnOk result (written code.new ≡ before (written code.old)
        (use_nodes kind from into free)) }
{
    match kind {
        Use::Peek => code.put_at(Inst::Peek(into, from, 0), mark),
        Use::Unary(operator) => code.put(unary_step(operator, into, from)),
        Use::Load(place) => {
            code.put_at(Inst::Load(into, place.slot, place.cells, from, 0), mark)
        }
        Use::Step(operator, place) => {
            emit_element_step(code, operator, place, mark, from, into, names.after(free)?)
        }
    }
}

/// The code of `x++` and its like.
#[tactic(auto, using(strc_work_code::proofs::Nodes::before_assoc))]
fn emit_step(
    code: &mut Builder,
    operator: StepOperator,
    slot: u32,
    into: u32,
    free: u32,
) -> Result<(), NoMemory>
    ensures { OnOk result (written code.new ≡ before (written code.old)
        (spec.step_nodes operator slot into free)) }
{
    match operator {
        StepOperator::IncrementFirst | StepOperator::DecrementFirst => {
            code.put(Inst::AddConst(slot, slot, step_amount(operator)))?;
            code.put(Inst::Copy(into, slot))
        }
        StepOperator::IncrementAfter | StepOperator::DecrementAfter => {
            code.put(Inst::Copy(free, slot))?;
            code.put(Inst::AddConst(slot, slot, step_amount(operator)))?;
            code.put(Inst::Copy(into, free))
        }
    }
}

/// The code of `a[i]++` and its like, where the index is in a slot.
#[tactic(auto, using(strc_work_code::proofs::Nodes::before_assoc))]
fn emit_element_step(
    code: &mut Builder,
    operator: StepOperator,
    place: Place,
    mark: u32,
    index: u32,
    into: u32,
    free: u32,
) -> Result<(), NoMemory>
    ensures { OnOk result (written code.new ≡ before (written code.old)
        (spec.element_step_nodes operator place.slot place.cells index into free)) }
{
    let new = slot_past(*code.line.allocator(), free, 1)?;
    code.put_at(Inst::Load(free, place.slot, place.cells, index, 0), mark)?;
    code.put(Inst::AddConst(new, free, step_amount(operator)))?;
    code.put_at(Inst::Store(place.slot, place.cells, index, new, 0), mark)?;
    code.put(Inst::Copy(into, step_result(operator, free, new)))
}

/// The code of an expression whose value isn't used.
pub fn emit_evaluation(
    code: &mut Builder,
    names: &Layout,
    value: &Expr,
    free: u32,
) -> Result<(), NoMemory>
    ensures { OnOk result (written code.new ≡ before (written code.old)
        (spec.evaluation_nodes names.now (expr_view value.now) free)) }
{
    match value {
        Expr::Step(operator, name) => {
            let slot = names.slot_of(name);
            code.put(Inst::AddConst(slot, slot, step_amount(*operator)))
        }
        _ => emit_expr(code, names, value, free, names.after(free)?),
    }
}

/// The code of an assignment.
#[tactic(auto, using(strc_work_code::proofs::Nodes::before_assoc))]
pub fn emit_assign(
    code: &mut Builder,
    names: &Layout,
    name: &Name,
    operator: AssignOperator,
    value: &Expr,
) -> Result<(), NoMemory>
    ensures { OnOk result (written code.new ≡ before (written code.old) (spec.expr_nodes names.now
        (assigned_value name.now operator (expr_view value.now))
        (slot_of names.now name.now)
        (total names.now))) }
{
    let free = names.total();
    let into = names.slot_of(name);
    match compound_operator(operator) {
        None => emit_expr(code, names, value, into, free),
        Some(operator) => {
            let left = save_old_value(code, into, writes_no_variable(value), free)?;
            let right = emit_operand(code, names, value, true, names.after(free)?)?;
            code.put_at(binary_step(operator, into, left, right), mark_of_name(name))
        }
    }
}

/// The code that keeps a variable's value, and its slot. Where it `may_alias`, it stays in its own
/// slot.
#[tactic(auto, using(strc_work_code::proofs::Nodes::before_end))]
fn save_old_value(
    code: &mut Builder,
    slot: u32,
    may_alias: bool,
    free: u32,
) -> Result<u32, NoMemory>
    ensures { IfOk result
        (λ at. (at ≡ old_slot may_alias slot free)
        × (written code.new ≡ before (written code.old) (old_nodes may_alias slot free))) }
{
    if may_alias {
        return Ok(slot);
    }
    code.put(Inst::Copy(free, slot))?;
    Ok(free)
}

/// The code of an assignment to an element: the index, and then what the operator says.
#[tactic(auto, using(strc_work_code::proofs::Nodes::before_assoc))]
pub fn emit_assign_element(
    code: &mut Builder,
    names: &Layout,
    name: &Name,
    index: &Expr,
    operator: AssignOperator,
    value: &Expr,
) -> Result<(), NoMemory>
    ensures { OnOk result (written code.new ≡ before (written code.old)
        (spec.stmt_nodes names.now (tree.AssignElement name.now (expr_view index.now) operator
        (expr_view value.now)))) }
{
    let free = names.total();
    let index = emit_operand(code, names, index, writes_no_variable(value), free)?;
    emit_element(
        code,
        names,
        name,
        index,
        operator,
        value,
        names.after(free)?,
    )
}

/// The code of an assignment to the element at an index that is in a slot.
#[tactic(auto, using(crate::proofs::Emitted::elements))]
fn emit_element(
    code: &mut Builder,
    names: &Layout,
    name: &Name,
    index: u32,
    operator: AssignOperator,
    value: &Expr,
    free: u32,
) -> Result<(), NoMemory>
    ensures { OnOk result (written code.new ≡ before (written code.old)
        (spec.element_nodes names.now name.now index operator (expr_view value.now) free)) }
{
    match compound_operator(operator) {
        None => {
            let from = emit_operand(code, names, value, true, free)?;
            let store = Inst::Store(names.slot_of(name), names.size_of(name), index, from, 0);
            code.put_at(store, mark_of_name(name))
        }
        Some(operator) => emit_compound(code, names, name, index, operator, value, free),
    }
}

/// The code of a compound assignment to an element: its old value, the value, the operator, and the
/// store.
#[tactic(auto, using(strc_work_code::proofs::Nodes::before_assoc))]
fn emit_compound(
    code: &mut Builder,
    names: &Layout,
    name: &Name,
    index: u32,
    operator: BinaryOperator,
    value: &Expr,
    free: u32,
) -> Result<(), NoMemory>
    ensures { OnOk result (written code.new ≡ before (written code.old)
        (spec.compound_nodes names.now name.now index operator (expr_view value.now) free)) }
{
    let slot = names.slot_of(name);
    let cells = names.size_of(name);
    let mark = mark_of_name(name);
    code.put_at(Inst::Load(free, slot, cells, index, 0), mark)?;
    let right = emit_operand(code, names, value, true, names.after(free)?)?;
    code.put_at(binary_step(operator, free, free, right), mark)?;
    code.put_at(Inst::Store(slot, cells, index, free, 0), mark)
}
