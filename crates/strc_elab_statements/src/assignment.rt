// What expressions and assignments do as statements of a composite stream's body.

ghost use Rattle.std.specs.Prelude.{◌≡◌};
ghost use Rattle.strc_parse_tree.specs.Tree as tree;
ghost use Rattle.strc_parse_tree.specs.View.{expr_view, stmt_view};
ghost use Rattle.strc_work_meaning.specs.Firing as firing;
ghost use Rattle.strc_work_meaning.specs.Firing.{stmt_done, alone};
ghost use Rattle.strc_elab_statements.specs.Saying.{store_of, Does};
ghost use Rattle.strc_elab_statements.specs.Simple.{IsSimple, IsPlain};

use crate::evaluation::{place_of, value};
use crate::store::Store;
use strc_lex_names::name::Name;
use strc_parse_tree::tree::{AssignOperator, BinaryOperator, Expr, Stmt};
use strc_work_meaning::evaluation::binary_value;
use strc_work_meaning::fault::Cause;

/// Does an expression or an assignment whose names and types are checked and whose constants are
/// substituted.
pub fn do_simple(statement: &Stmt, store: &mut Store) -> Result<(), Cause>
    requires { IsSimple (stmt_view statement.now) }
    ensures does { Does (stmt_done alone (stmt_view statement.now) (store_of store.old)) result
        (store_of store.new) }
    ensures names { store.new.variables.names ≡ store.old.variables.names }
{
    match statement {
        Stmt::Evaluate(expression) => {
            value(expression, store)?;
            Ok(())
        }
        Stmt::Assign(name, operator, expression) => assign(name, *operator, expression, store),
        Stmt::AssignElement(name, index, operator, expression) => {
            let index = value(index, store)?;
            assign_element(name, index, *operator, expression, store)
        }
        Stmt::Placed(_, inner) => do_simple(inner, store),
        _ => Ok(()),
    }
}

/// An assignment to a variable; a compound one reads the variable first.
fn assign(
    name: &Name,
    operator: AssignOperator,
    expression: &Expr,
    store: &mut Store,
) -> Result<(), Cause>
    ensures does { Does (stmt_done alone (tree.Assign name.now operator (expr_view expression.now))
        (store_of store.old)) result (store_of store.new) }
    ensures names { store.new.variables.names ≡ store.old.variables.names }
{
    let old = store.variables.cell(name, 0);
    let given = value(expression, store)?;
    let new = match operator {
        AssignOperator::Set => given,
        AssignOperator::Add => binary_value(BinaryOperator::Add, old, given)?,
        AssignOperator::Subtract => binary_value(BinaryOperator::Subtract, old, given)?,
        AssignOperator::Multiply => binary_value(BinaryOperator::Multiply, old, given)?,
        AssignOperator::Divide => binary_value(BinaryOperator::Divide, old, given)?,
        AssignOperator::Remainder => binary_value(BinaryOperator::Remainder, old, given)?,
    };
    store.variables.set(name, 0, new);
    Ok(())
}

/// An assignment to the element at an index; a compound one tests the index and reads the element
/// first.
fn assign_element(
    name: &Name,
    index: i32,
    operator: AssignOperator,
    expression: &Expr,
    store: &mut Store,
) -> Result<(), Cause>
    ensures does { Does (firing.element_set alone name.now operator (expr_view expression.now)
        (index, store_of store.old)) result (store_of store.new) }
    ensures names { store.new.variables.names ≡ store.old.variables.names }
{
    match operator {
        AssignOperator::Set => {
            let given = value(expression, store)?;
            let place = place_of(name, index, store)?;
            store.variables.set(name, place, given);
            Ok(())
        }
        AssignOperator::Add => join_element(name, index, BinaryOperator::Add, expression, store),
        AssignOperator::Subtract => {
            join_element(name, index, BinaryOperator::Subtract, expression, store)
        }
        AssignOperator::Multiply => {
            join_element(name, index, BinaryOperator::Multiply, expression, store)
        }
        AssignOperator::Divide => {
            join_element(name, index, BinaryOperator::Divide, expression, store)
        }
        AssignOperator::Remainder => {
            join_element(name, index, BinaryOperator::Remainder, expression, store)
        }
    }
}

/// An operator between an element and a value.
fn join_element(
    name: &Name,
    index: i32,
    operator: BinaryOperator,
    expression: &Expr,
    store: &mut Store,
) -> Result<(), Cause>
    requires { IsPlain operator }
    ensures does { Does (firing.element_joined alone name.now operator (expr_view expression.now)
        (index, store_of store.old)) result (store_of store.new) }
    ensures names { store.new.variables.names ≡ store.old.variables.names }
{
    let place = place_of(name, index, store)?;
    let old = store.variables.cell(name, place);
    let given = value(expression, store)?;
    let new = binary_value(operator, old, given)?;
    store.variables.set(name, place, new);
    Ok(())
}
