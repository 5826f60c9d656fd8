// The values of expressions in a composite stream's body.

ghost use Rattle.std.specs.Prelude.{◌≡◌, length, IfOk};
ghost use Rattle.strc_parse_tree.specs.View.{expr_view, listed_view};
ghost use Rattle.strc_work_meaning.specs.Firing as firing;
ghost use Rattle.strc_work_meaning.specs.Firing.{value_of, alone, place_in, cells_named};
ghost use Rattle.strc_elab_statements.specs.Saying.{store_of, Evaluates, Does, arguments_done};

use crate::store::Store;
use strc_lex_names::name::Name;
use strc_parse_tree::tree::{Expr, StepOperator};
use strc_work_meaning::arithmetic;
use strc_work_meaning::evaluation::{binary_value, decides, is_true, unary_value};
use strc_work_meaning::fault::Cause;

/// The value of an expression whose names and types are checked and whose constants are
/// substituted. A fault is that of the first part that has one, from left to right.
#[cycle(value)]
pub fn value(expression: &Expr, store: &mut Store) -> Result<i32, Cause>
    ensures says { Evaluates (value_of alone (expr_view expression.now) (store_of store.old)) result
        (store_of store.new) }
    ensures names { store.new.variables.names ≡ store.old.variables.names }
{
    match expression {
        Expr::Number(number) => Ok(*number),
        Expr::Truth(truth) => Ok(i32::from(*truth)),
        Expr::Read(name) => Ok(store.variables.cell(name, 0)),
        Expr::Element(name, index) => {
            let index = value(index, store)?;
            let place = place_of(name, index, store)?;
            Ok(store.variables.cell(name, place))
        }
        Expr::Pop => Err(Cause::PeekRange),
        Expr::Peek(_, index) => {
            value(index, store)?;
            Err(Cause::PeekRange)
        }
        Expr::Call(_, arguments) => {
            match evaluate_arguments(arguments, store) {
                Ok(()) => Err(Cause::Calls),
                Err(cause) => Err(cause),
            }
        }
        Expr::Group(inner) => value(inner, store),
        Expr::Unary(operator, operand) => {
            let operand = value(operand, store)?;
            Ok(unary_value(*operator, operand))
        }
        Expr::Step(operator, name) => Ok(stepped(*operator, name, 0, store)),
        Expr::StepElement(operator, name, index) => {
            let index = value(index, store)?;
            let place = place_of(name, index, store)?;
            Ok(stepped(*operator, name, place, store))
        }
        Expr::Binary(operator, left, right) => {
            let left = value(left, store)?;
            if decides(operator.kind(), left) {
                return Ok(left);
            }
            let right = value(right, store)?;
            binary_value(operator.kind(), left, right)
        }
        Expr::Conditional(condition, chosen, other) => {
            let test = value(condition, store)?;
            if is_true(test) {
                value(chosen, store)
            } else {
                value(other, store)
            }
        }
    }
}

/// Evaluates the arguments of a call, from left to right.
#[cycle(value)]
fn evaluate_arguments(arguments: &[Expr], store: &mut Store) -> Result<(), Cause>
    ensures says { Does (arguments_done (listed_view arguments.now) (store_of store.old)) result
        (store_of store.new) }
    ensures names { store.new.variables.names ≡ store.old.variables.names }
{
    for argument in arguments {
        match value(argument, store) {
            Ok(_) => {}
            Err(cause) => return Err(cause),
        }
    }
    Ok(())
}

/// The place of an index in the array of a name, which is tested.
pub fn place_of(name: &Name, index: i32, store: &Store) -> Result<usize, Cause>
    ensures { result ≡ firing.place_of (store_of store.now) name.now index }
{
    if index < 0 {
        return Err(Cause::Index);
    }
    let place = index as usize;
    if place >= store.variables.size_of(name) {
        return Err(Cause::Index);
    }
    Ok(place)
}

/// A step of a cell by one, and its value.
fn stepped(operator: StepOperator, name: &Name, place: usize, store: &mut Store) -> i32
    ensures value { result ≡ firing.step_value operator
        (firing.cell_in (store_of store.old) name.now place)
        (firing.value_stepped operator (firing.cell_in (store_of store.old) name.now place)) }
    ensures store { store_of store.new ≡ firing.cell_set (store_of store.old) name.now place
        (firing.value_stepped operator (firing.cell_in (store_of store.old) name.now place)) }
    ensures names { store.new.variables.names ≡ store.old.variables.names }
{
    let old = store.variables.cell(name, place);
    let new = value_after(operator, old);
    store.variables.set(name, place, new);
    match operator {
        StepOperator::IncrementFirst | StepOperator::DecrementFirst => new,
        StepOperator::IncrementAfter | StepOperator::DecrementAfter => old,
    }
}

/// The value of a variable after a step by one.
fn value_after(operator: StepOperator, old: i32) -> i32
    ensures { result ≡ firing.value_stepped operator old }
{
    match operator {
        StepOperator::IncrementFirst | StepOperator::IncrementAfter => arithmetic::sum(old, 1),
        StepOperator::DecrementFirst | StepOperator::DecrementAfter => arithmetic::sum(old, -1),
    }
}
