// The peeks to which no run comes: those of a side that a constant condition never takes, and of a
// loop of no turn. Each has a site all the same, so that sites and peeks keep step.

ghost use Rattle.std.specs.Prelude.{◌≡◌, ◌++◌, OnOk, map};
ghost use Rattle.std.specs.Option.{option_map};
ghost use Rattle.strc_parse_tree.specs.Tree as tree;
ghost use Rattle.strc_parse_tree.specs.View.{expr_view, listed_view, variable_view, stmt_view};
ghost use Rattle.strc_parse_tree.specs.View.{block_view};
ghost use Rattle.strc_rate.specs.Entries as text;
ghost use Rattle.strc_rate.specs.Peeks as spec;

use crate::sight::PeekSite;
use strc_lex_names::memory::NoMemory;
use strc_parse_tree::tree::{Expr, Stmt, Variable};

/// Adds a site for each peek of statements in a row to which no run comes.
#[cycle(statement)]
fn skip_block(block: &[Stmt], sites: &mut Vec<PeekSite>) -> Result<(), NoMemory>
    ensures { OnOk result (sites.new.items
        ≡ sites.old.items ++ spec.unreached (text.peeks_of (block_view block.now))) }
{
    for statement in block {
        skip_statement(statement, sites)?;
    }
    Ok(())
}

/// The same of a statement.
#[cycle(statement)]
pub(crate) fn skip_statement(statement: &Stmt, sites: &mut Vec<PeekSite>) -> Result<(), NoMemory>
    ensures { OnOk result (sites.new.items
        ≡ sites.old.items ++ spec.unreached (text.peeks_of_stmt (stmt_view statement.now))) }
{
    match statement {
        Stmt::Empty | Stmt::Return(_) | Stmt::Compose(_) => Ok(()),
        Stmt::Block(body) => skip_block(body, sites),
        Stmt::Placed(_, inner) => skip_statement(inner, sites),
        Stmt::Declare(declared) => skip_variables(&declared.variables, sites),
        Stmt::Evaluate(value)
        | Stmt::Assign(_, _, value)
        | Stmt::Push(value)
        | Stmt::Print(value)
        | Stmt::Println(value) => skip_expression(value, sites),
        Stmt::AssignElement(_, index, _, value) => skip_operands(index, value, sites),
        Stmt::If(condition, body) | Stmt::While(condition, body) => {
            skip_guarded(condition, body, sites)
        }
        Stmt::IfElse(condition, chosen, other) => skip_if_else(condition, chosen, other, sites),
        Stmt::For(first, condition, step, body) => skip_for(first, condition, step, body, sites),
    }
}

/// The same of a condition and the statement after it.
#[cycle(statement)]
#[tactic(auto, using(crate::proofs::Unreaching::parts))]
fn skip_guarded(condition: &Expr, body: &Stmt, sites: &mut Vec<PeekSite>) -> Result<(), NoMemory>
    ensures { OnOk result (sites.new.items ≡ sites.old.items ++ spec.unreached
        (text.peeks_of_stmt (tree.If (expr_view condition.now) (stmt_view body.now)))) }
{
    skip_expression(condition, sites)?;
    skip_statement(body, sites)
}

/// The same of two branches.
#[cycle(statement)]
#[tactic(auto, using(crate::proofs::Unreaching::parts))]
fn skip_if_else(
    condition: &Expr,
    chosen: &Stmt,
    other: &Stmt,
    sites: &mut Vec<PeekSite>,
) -> Result<(), NoMemory>
    ensures { OnOk result (sites.new.items ≡ sites.old.items ++ spec.unreached
        (text.peeks_of_stmt (tree.IfElse (expr_view condition.now) (stmt_view chosen.now)
        (stmt_view other.now)))) }
{
    skip_expression(condition, sites)?;
    skip_statement(chosen, sites)?;
    skip_statement(other, sites)
}

/// The same of a `for`.
#[cycle(statement)]
#[tactic(auto, using(crate::proofs::Unreaching::parts))]
fn skip_for(
    first: &Stmt,
    condition: &Option<Expr>,
    step: &Stmt,
    body: &Stmt,
    sites: &mut Vec<PeekSite>,
) -> Result<(), NoMemory>
    ensures { OnOk result (sites.new.items ≡ sites.old.items ++ spec.unreached
        (text.peeks_of_stmt (tree.For (stmt_view first.now) (option_map expr_view condition.now)
        (stmt_view step.now) (stmt_view body.now)))) }
{
    skip_statement(first, sites)?;
    skip_option(condition, sites)?;
    skip_statement(step, sites)?;
    skip_statement(body, sites)
}

/// The same of the initialisers of a declaration.
fn skip_variables(variables: &[Variable], sites: &mut Vec<PeekSite>) -> Result<(), NoMemory>
    ensures { OnOk result (sites.new.items
        ≡ sites.old.items ++ spec.unreached
        (text.peeks_of_variables (map variable_view variables.now))) }
{
    for variable in variables {
        skip_option(&variable.initial, sites)?;
    }
    Ok(())
}

fn skip_option(value: &Option<Expr>, sites: &mut Vec<PeekSite>) -> Result<(), NoMemory>
    ensures { OnOk result (sites.new.items
        ≡ sites.old.items ++ spec.unreached
        (text.peeks_of_option (option_map expr_view value.now))) }
{
    match value {
        None => Ok(()),
        Some(value) => skip_expression(value, sites),
    }
}

/// The same of an expression.
#[cycle(expression)]
pub(crate) fn skip_expression(value: &Expr, sites: &mut Vec<PeekSite>) -> Result<(), NoMemory>
    ensures { OnOk result (sites.new.items
        ≡ sites.old.items ++ spec.unreached (text.peeks_of_expr (expr_view value.now))) }
{
    match value {
        Expr::Number(_) | Expr::Truth(_) | Expr::Read(_) | Expr::Pop | Expr::Step(_, _) => Ok(()),
        Expr::Call(_, arguments) => skip_arguments(arguments, sites),
        Expr::Peek(_, index) => skip_peek(index, sites),
        Expr::Element(_, inner)
        | Expr::Group(inner)
        | Expr::Unary(_, inner)
        | Expr::StepElement(_, _, inner) => skip_expression(inner, sites),
        Expr::Binary(_, left, right) => skip_operands(left, right, sites),
        Expr::Conditional(condition, chosen, other) => {
            skip_conditional(condition, chosen, other, sites)
        }
    }
}

/// The same of a peek, which comes after those in its index.
#[cycle(expression)]
#[tactic(auto, using(crate::proofs::Unreaching::parts))]
fn skip_peek(index: &Expr, sites: &mut Vec<PeekSite>) -> Result<(), NoMemory>
    ensures { OnOk result (sites.new.items ≡ sites.old.items
        ++ spec.unreached (text.peeks_of_expr (tree.Peek (expr_view index.now)))) }
{
    skip_expression(index, sites)?;
    sites.push(PeekSite::NoRun)?;
    Ok(())
}

/// The same of two expressions in a row.
#[cycle(expression)]
#[tactic(auto, using(crate::proofs::Unreaching::parts))]
fn skip_operands(left: &Expr, right: &Expr, sites: &mut Vec<PeekSite>) -> Result<(), NoMemory>
    ensures { OnOk result (sites.new.items ≡ sites.old.items ++ spec.unreached
        (text.peeks_of_expr (expr_view left.now) ++ text.peeks_of_expr (expr_view right.now))) }
{
    skip_expression(left, sites)?;
    skip_expression(right, sites)
}

/// The same of a choice between two expressions.
#[cycle(expression)]
#[tactic(auto, using(crate::proofs::Unreaching::parts))]
fn skip_conditional(
    condition: &Expr,
    chosen: &Expr,
    other: &Expr,
    sites: &mut Vec<PeekSite>,
) -> Result<(), NoMemory>
    ensures { OnOk result (sites.new.items ≡ sites.old.items ++ spec.unreached
        (text.peeks_of_expr (tree.Conditional (expr_view condition.now) (expr_view chosen.now)
        (expr_view other.now)))) }
{
    skip_expression(condition, sites)?;
    skip_operands(chosen, other, sites)
}

/// The same of the arguments of a call.
#[cycle(expression)]
fn skip_arguments(arguments: &[Expr], sites: &mut Vec<PeekSite>) -> Result<(), NoMemory>
    ensures { OnOk result (sites.new.items ≡ sites.old.items
        ++ spec.unreached (text.peeks_of_arguments (listed_view arguments.now))) }
{
    for argument in arguments {
        skip_expression(argument, sites)?;
    }
    Ok(())
}
