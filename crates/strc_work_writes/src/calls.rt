// Which helper functions a text calls.

ghost use Rattle.std.specs.Prelude.{◌≡◌, OnOk, map};
ghost use Rattle.std.specs.Option.{option_map};
ghost use Rattle.strc_parse_tree.specs.View.{expr_view, listed_view, variable_view, stmt_view};
ghost use Rattle.strc_parse_tree.specs.View.{block_view};
ghost use Rattle.strc_work_writes.specs.Calls as spec;
ghost use Rattle.strc_work_writes.specs.Writers.{with_call, with_calls};

use strc_lex_names::memory::NoMemory;
use strc_lex_names::name::Name;
use strc_lex_names::scope_map::ScopeMap;
use strc_parse_tree::tree::{Expr, Stmt, Variable};

/// Adds the helper functions that statements in a row call to those that are found.
#[cycle(calls)]
#[tactic(auto, using(crate::proofs::Search::calls_after))]
pub fn find_in_block(
    helpers: &ScopeMap<usize>,
    found: &mut ScopeMap<usize>,
    block: &[Stmt],
) -> Result<(), NoMemory>
    ensures { OnOk result (found.new
        ≡ with_calls helpers.now found.old (spec.called_in_stmts (block_view block.now))) }
{
    for statement in block {
        find_in_statement(helpers, found, statement)?;
    }
    Ok(())
}

#[cycle(calls)]
#[tactic(auto, using(crate::proofs::Search::calls_after))]
fn find_in_statement(
    helpers: &ScopeMap<usize>,
    found: &mut ScopeMap<usize>,
    statement: &Stmt,
) -> Result<(), NoMemory>
    ensures { OnOk result (found.new
        ≡ with_calls helpers.now found.old (spec.called_in_stmt (stmt_view statement.now))) }
{
    match statement {
        Stmt::Empty | Stmt::Compose(_) => Ok(()),
        Stmt::Block(body) => find_in_block(helpers, found, body),
        Stmt::Placed(_, inner) => find_in_statement(helpers, found, inner),
        Stmt::Declare(declared) => find_in_variables(helpers, found, &declared.variables),
        Stmt::AssignElement(_, index, _, value) => {
            find_in_expression(helpers, found, index)?;
            find_in_expression(helpers, found, value)
        }
        Stmt::If(condition, body) | Stmt::While(condition, body) => {
            find_in_expression(helpers, found, condition)?;
            find_in_statement(helpers, found, body)
        }
        Stmt::IfElse(condition, chosen, other) => {
            find_in_expression(helpers, found, condition)?;
            find_in_statement(helpers, found, chosen)?;
            find_in_statement(helpers, found, other)
        }
        Stmt::For(first, condition, step, body) => {
            find_in_statement(helpers, found, first)?;
            find_in_option(helpers, found, condition)?;
            find_in_statement(helpers, found, step)?;
            find_in_statement(helpers, found, body)
        }
        Stmt::Assign(_, _, value)
        | Stmt::Evaluate(value)
        | Stmt::Push(value)
        | Stmt::Print(value)
        | Stmt::Println(value) => find_in_expression(helpers, found, value),
        Stmt::Return(value) => find_in_option(helpers, found, value),
    }
}

/// Adds those that the initialisers of a declaration call.
#[tactic(auto, using(crate::proofs::Search::calls_after))]
fn find_in_variables(
    helpers: &ScopeMap<usize>,
    found: &mut ScopeMap<usize>,
    variables: &[Variable],
) -> Result<(), NoMemory>
    ensures { OnOk result (found.new ≡ with_calls helpers.now found.old
        (spec.called_in_variables (map variable_view variables.now))) }
{
    for variable in variables {
        find_in_option(helpers, found, &variable.initial)?;
    }
    Ok(())
}

fn find_in_option(
    helpers: &ScopeMap<usize>,
    found: &mut ScopeMap<usize>,
    value: &Option<Expr>,
) -> Result<(), NoMemory>
    ensures { OnOk result (found.new ≡ with_calls helpers.now found.old
        (spec.called_in_option (option_map expr_view value.now))) }
{
    match value {
        None => Ok(()),
        Some(value) => find_in_expression(helpers, found, value),
    }
}

#[cycle(expression)]
#[tactic(auto, using(crate::proofs::Search::calls_after))]
fn find_in_expression(
    helpers: &ScopeMap<usize>,
    found: &mut ScopeMap<usize>,
    value: &Expr,
) -> Result<(), NoMemory>
    ensures { OnOk result (found.new
        ≡ with_calls helpers.now found.old (spec.called_in_expr (expr_view value.now))) }
{
    match value {
        Expr::Number(_) | Expr::Truth(_) | Expr::Read(_) | Expr::Pop | Expr::Step(_, _) => Ok(()),
        Expr::Element(_, inner)
        | Expr::Peek(_, inner)
        | Expr::Group(inner)
        | Expr::Unary(_, inner)
        | Expr::StepElement(_, _, inner) => find_in_expression(helpers, found, inner),
        Expr::Call(called, arguments) => {
            find_called(helpers, found, called)?;
            find_in_arguments(helpers, found, arguments)
        }
        Expr::Binary(_, left, right) => {
            find_in_expression(helpers, found, left)?;
            find_in_expression(helpers, found, right)
        }
        Expr::Conditional(condition, chosen, other) => {
            find_in_expression(helpers, found, condition)?;
            find_in_expression(helpers, found, chosen)?;
            find_in_expression(helpers, found, other)
        }
    }
}

/// Adds those that the arguments of a call call themselves.
#[cycle(expression)]
#[tactic(auto, using(crate::proofs::Search::calls_after))]
fn find_in_arguments(
    helpers: &ScopeMap<usize>,
    found: &mut ScopeMap<usize>,
    arguments: &[Expr],
) -> Result<(), NoMemory>
    ensures { OnOk result (found.new ≡ with_calls helpers.now found.old
        (spec.called_in_arguments (listed_view arguments.now))) }
{
    for argument in arguments {
        find_in_expression(helpers, found, argument)?;
    }
    Ok(())
}

/// Adds the helper function of a name that is called.
fn find_called(
    helpers: &ScopeMap<usize>,
    found: &mut ScopeMap<usize>,
    called: &Name,
) -> Result<(), NoMemory>
    ensures { OnOk result (found.new ≡ with_call helpers.now found.old called.now) }
{
    if found.has(called) {
        return Ok(());
    }
    match helpers.value_of(called) {
        Some(place) => found.declare(called, place),
        None => Ok(()),
    }
}
