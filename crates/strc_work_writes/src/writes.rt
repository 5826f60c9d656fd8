// Which variables a text writes.

ghost use Rattle.std.specs.Prelude.{◌≡◌, bytes_eq, map};
ghost use Rattle.std.specs.Option.{option_map};
ghost use Rattle.strc_parse_tree.specs.View.{expr_view, listed_view, variable_view, stmt_view};
ghost use Rattle.strc_parse_tree.specs.View.{block_view};
ghost use Rattle.strc_work_writes.specs.LocalWrites as spec;

use strc_lex_names::name::Name;
use strc_parse_tree::tree::{Expr, Stmt, Variable};

/// Whether two names are the same.
pub fn same_name(first: &Name, second: &Name) -> bool
    ensures { result ≡ bytes_eq first.now second.now }
{
    first.as_bytes() == second.as_bytes()
}

/// Whether statements in a row write the variable that this name has where they are, and not an
/// inner one of the same name.
#[cycle(writes)]
fn block_writes(block: &[Stmt], name: &Name) -> bool
    ensures { result ≡ spec.stmts_write name.now (block_view block.now) }
{
    for statement in block {
        if statement_writes(statement, name) {
            return true;
        }
        if shadows(statement, name) {
            return false;
        }
    }
    false
}

/// Whether a statement writes the variable that this name has where it is, and not an inner one
/// of the same name.
#[cycle(writes)]
pub fn statement_writes(statement: &Stmt, name: &Name) -> bool
    ensures { result ≡ spec.stmt_writes name.now (stmt_view statement.now) }
{
    match statement {
        Stmt::Empty | Stmt::Compose(_) => false,
        Stmt::Block(body) => block_writes(body, name),
        Stmt::Placed(_, inner) => statement_writes(inner, name),
        Stmt::Declare(declared) => variables_write(&declared.variables, name),
        Stmt::Assign(assigned, _, value) => {
            same_name(assigned, name) || expression_writes(value, name)
        }
        Stmt::AssignElement(array, index, _, value) => {
            same_name(array, name)
                || (expression_writes(index, name) || expression_writes(value, name))
        }
        Stmt::If(condition, body) | Stmt::While(condition, body) => {
            expression_writes(condition, name) || statement_writes(body, name)
        }
        Stmt::IfElse(condition, chosen, other) => {
            expression_writes(condition, name)
                || (statement_writes(chosen, name) || statement_writes(other, name))
        }
        Stmt::For(first, condition, step, body) => {
            statement_writes(first, name)
                || (!shadows(first, name)
                    && (option_writes(condition, name)
                        || (statement_writes(step, name) || statement_writes(body, name))))
        }
        Stmt::Evaluate(value) | Stmt::Push(value) | Stmt::Print(value) | Stmt::Println(value) => {
            expression_writes(value, name)
        }
        Stmt::Return(value) => option_writes(value, name),
    }
}

/// Whether the statements after one see a new variable of this name.
fn shadows(statement: &Stmt, name: &Name) -> bool
    ensures { result ≡ spec.shadows name.now (stmt_view statement.now) }
{
    match statement {
        Stmt::Declare(declared) => declares(&declared.variables, name),
        Stmt::Placed(_, inner) => shadows(inner, name),
        _ => false,
    }
}

fn declares(variables: &[Variable], name: &Name) -> bool
    ensures { result ≡ spec.declares name.now (map variable_view variables.now) }
{
    for variable in variables {
        if same_name(&variable.name, name) {
            return true;
        }
    }
    false
}

/// An initialiser doesn't see its own variable, and those after it do.
fn variables_write(variables: &[Variable], name: &Name) -> bool
    ensures { result ≡ spec.variables_write name.now (map variable_view variables.now) }
{
    for variable in variables {
        if option_writes(&variable.initial, name) {
            return true;
        }
        if same_name(&variable.name, name) {
            return false;
        }
    }
    false
}

fn option_writes(value: &Option<Expr>, name: &Name) -> bool
    ensures { result ≡ spec.option_writes name.now (option_map expr_view value.now) }
{
    match value {
        None => false,
        Some(value) => expression_writes(value, name),
    }
}

#[cycle(expression)]
fn expression_writes(value: &Expr, name: &Name) -> bool
    ensures { result ≡ spec.expr_writes name.now (expr_view value.now) }
{
    match value {
        Expr::Number(_) | Expr::Truth(_) | Expr::Read(_) | Expr::Pop => false,
        Expr::Element(_, inner)
        | Expr::Peek(_, inner)
        | Expr::Group(inner)
        | Expr::Unary(_, inner) => { expression_writes(inner, name) }
        Expr::Call(_, arguments) => arguments_write(arguments, name),
        Expr::Step(_, stepped) => same_name(stepped, name),
        Expr::StepElement(_, array, index) => {
            same_name(array, name) || expression_writes(index, name)
        }
        Expr::Binary(_, left, right) => {
            expression_writes(left, name) || expression_writes(right, name)
        }
        Expr::Conditional(condition, chosen, other) => {
            expression_writes(condition, name)
                || (expression_writes(chosen, name) || expression_writes(other, name))
        }
    }
}

/// Whether one of the arguments of a call writes the variable.
#[cycle(expression)]
fn arguments_write(arguments: &[Expr], name: &Name) -> bool
    ensures { result ≡ spec.exprs_write name.now (listed_view arguments.now) }
{
    for argument in arguments {
        if expression_writes(argument, name) {
            return true;
        }
    }
    false
}
