// Whether a text writes a field, in one walk: the names of the fields and those of the local
// variables that can be seen are in tables.

ghost use Rattle.std.specs.Prelude.{◌≡◌, ◌||◌, false, IfOk, OnOk, map};
ghost use Rattle.std.specs.Option.{option_map};
ghost use Rattle.strc_parse_tree.specs.Tree as tree;
ghost use Rattle.strc_parse_tree.specs.View.{expr_view, type_view, variable_view, stmt_view};
ghost use Rattle.strc_parse_tree.specs.View.{block_view, listed_view};
ghost use Rattle.strc_work_meaning.specs.Filters.{field_names, members_of};
ghost use Rattle.strc_work_writes.specs.LocalWrites.{with_locals, locals_after};
ghost use Rattle.strc_work_writes.specs.Stateless.{write_one_of};
ghost use Rattle.strc_work_writes.specs.Walk as spec;

use std::alloc::Global;
use strc_lex_names::memory::NoMemory;
use strc_lex_names::name::Name;
use strc_lex_names::scope::Scope;
use strc_parse_tree::tree::{Expr, Member, Stmt, Variable};

/// Whether a work writes a field that the members of its filter declare, or an element of one. It
/// takes time near linear in the length of the text. `NoMemory` where there is none for the names
/// of the fields and of the local variables that can be seen at a place.
pub fn writes_field(alloc: Global, members: &[Member], work: &[Stmt]) -> Result<bool, NoMemory>
    ensures { IfOk result (λ writes. writes
        ≡ write_one_of (field_names (members_of members.now)) (block_view work.now)) }
{
    let mut fields = Scope::new(alloc);
    declare_fields(&mut fields, members)?;
    let mut locals = Scope::new(alloc);
    block_writes_field(&fields, &mut locals, work)
}

/// Adds the names of the fields that members declare.
pub(crate) fn declare_fields(fields: &mut Scope, members: &[Member]) -> Result<(), NoMemory>
    ensures { OnOk result (fields.new ≡ spec.with_fields fields.old (members_of members.now)) }
{
    for member in members {
        if let Member::Fields(declared) = member {
            declare_names(fields, &declared.variables)?;
        }
    }
    Ok(())
}

/// Adds the names of variables, the last one innermost.
fn declare_names(names: &mut Scope, variables: &[Variable]) -> Result<(), NoMemory>
    ensures { OnOk result (names.new ≡ with_locals names.old (map variable_view variables.now)) }
{
    for variable in variables {
        names.declare(&variable.name)?;
    }
    Ok(())
}

/// Whether statements in a row write a field. Where they don't, the local variables are as before.
#[cycle(statement)]
pub(crate) fn block_writes_field(
    fields: &Scope,
    locals: &mut Scope,
    block: &[Stmt],
) -> Result<bool, NoMemory>
    ensures writes { IfOk result (λ writes. writes
        ≡ spec.stmts_write_field fields.now locals.old (block_view block.now)) }
    ensures locals { IfOk result (λ writes. writes ≡ false → locals.new ≡ locals.old) }
{
    let start = locals.len();
    for statement in block {
        if statement_writes_field(fields, locals, statement)? {
            return Ok(true);
        }
    }
    locals.leave(start);
    Ok(false)
}

/// Whether a statement writes a field. Where it doesn't, the variables that it declares are among
/// the local ones after it.
#[cycle(statement)]
fn statement_writes_field(
    fields: &Scope,
    locals: &mut Scope,
    statement: &Stmt,
) -> Result<bool, NoMemory>
    ensures writes { IfOk result (λ writes. writes
        ≡ spec.stmt_writes_field fields.now locals.old (stmt_view statement.now)) }
    ensures locals { IfOk result (λ writes. writes ≡ false
        → locals.new ≡ locals_after locals.old (stmt_view statement.now)) }
{
    match statement {
        Stmt::Empty | Stmt::Compose(_) => Ok(false),
        Stmt::Block(body) => block_writes_field(fields, locals, body),
        Stmt::Placed(_, inner) => statement_writes_field(fields, locals, inner),
        Stmt::Declare(declared) => variables_write_field(fields, locals, &declared.variables),
        Stmt::Assign(assigned, _, value) => {
            Ok(is_field(fields, locals, assigned) || expression_writes_field(fields, locals, value))
        }
        Stmt::AssignElement(array, index, _, value) => {
            Ok(is_field(fields, locals, array) || either_writes_field(fields, locals, index, value))
        }
        Stmt::If(condition, body) | Stmt::While(condition, body) => {
            guarded_writes_field(fields, locals, condition, body)
        }
        Stmt::IfElse(condition, chosen, other) => {
            branches_write_field(fields, locals, condition, chosen, other)
        }
        Stmt::For(first, condition, step, body) => {
            loop_writes_field(fields, locals, first, condition, step, body)
        }
        Stmt::Evaluate(value) | Stmt::Push(value) | Stmt::Print(value) | Stmt::Println(value) => {
            Ok(expression_writes_field(fields, locals, value))
        }
        Stmt::Return(value) => Ok(option_writes_field(fields, locals, value)),
    }
}

/// Whether a statement in a scope of its own writes a field.
#[cycle(statement)]
#[tactic(auto, using(crate::proofs::Growth::drop_own))]
fn inner_writes_field(
    fields: &Scope,
    locals: &mut Scope,
    statement: &Stmt,
) -> Result<bool, NoMemory>
    ensures writes { IfOk result (λ writes. writes
        ≡ spec.stmt_writes_field fields.now locals.old (stmt_view statement.now)) }
    ensures locals { IfOk result (λ writes. writes ≡ false → locals.new ≡ locals.old) }
{
    let start = locals.len();
    let writes = statement_writes_field(fields, locals, statement)?;
    locals.leave(start);
    Ok(writes)
}

/// Whether a condition, or the statement after it, writes a field.
#[cycle(statement)]
fn guarded_writes_field(
    fields: &Scope,
    locals: &mut Scope,
    condition: &Expr,
    body: &Stmt,
) -> Result<bool, NoMemory>
    ensures writes { IfOk result (λ writes. writes ≡ spec.stmt_writes_field fields.now locals.old
        (tree.If (expr_view condition.now) (stmt_view body.now))) }
    ensures locals { IfOk result (λ writes. writes ≡ false → locals.new ≡ locals.old) }
{
    if expression_writes_field(fields, locals, condition) {
        return Ok(true);
    }
    inner_writes_field(fields, locals, body)
}

/// Whether a condition, or one of two branches, writes a field.
#[cycle(statement)]
fn branches_write_field(
    fields: &Scope,
    locals: &mut Scope,
    condition: &Expr,
    chosen: &Stmt,
    other: &Stmt,
) -> Result<bool, NoMemory>
    ensures writes { IfOk result (λ writes. writes ≡ spec.stmt_writes_field fields.now locals.old
        (tree.IfElse (expr_view condition.now) (stmt_view chosen.now) (stmt_view other.now))) }
    ensures locals { IfOk result (λ writes. writes ≡ false → locals.new ≡ locals.old) }
{
    if expression_writes_field(fields, locals, condition) {
        return Ok(true);
    }
    if inner_writes_field(fields, locals, chosen)? {
        return Ok(true);
    }
    inner_writes_field(fields, locals, other)
}

/// Whether a part of a `for` writes a field; its heading's variables are seen up to its end.
#[cycle(statement)]
#[tactic(auto, using(crate::proofs::Growth::drop_own))]
fn loop_writes_field(
    fields: &Scope,
    locals: &mut Scope,
    first: &Stmt,
    condition: &Option<Expr>,
    step: &Stmt,
    body: &Stmt,
) -> Result<bool, NoMemory>
    ensures writes { IfOk result (λ writes. writes ≡ spec.stmt_writes_field fields.now locals.old
        (tree.For (stmt_view first.now) (option_map expr_view condition.now) (stmt_view step.now)
        (stmt_view body.now))) }
    ensures locals { IfOk result (λ writes. writes ≡ false → locals.new ≡ locals.old) }
{
    let start = locals.len();
    if statement_writes_field(fields, locals, first)? {
        return Ok(true);
    }
    if option_writes_field(fields, locals, condition) {
        return Ok(true);
    }
    if inner_writes_field(fields, locals, step)? {
        return Ok(true);
    }
    let writes = inner_writes_field(fields, locals, body)?;
    locals.leave(start);
    Ok(writes)
}

/// Whether an initialiser of a declaration writes a field. It doesn't see its own variable, and
/// those after it do.
fn variables_write_field(
    fields: &Scope,
    locals: &mut Scope,
    variables: &[Variable],
) -> Result<bool, NoMemory>
    ensures writes { IfOk result (λ writes. writes
        ≡ spec.variables_write_field fields.now locals.old (map variable_view variables.now)) }
    ensures locals { IfOk result (λ writes. writes ≡ false
        → locals.new ≡ with_locals locals.old (map variable_view variables.now)) }
{
    for variable in variables {
        if option_writes_field(fields, locals, &variable.initial) {
            return Ok(true);
        }
        locals.declare(&variable.name)?;
    }
    Ok(false)
}

fn option_writes_field(fields: &Scope, locals: &Scope, value: &Option<Expr>) -> bool
    ensures { result
        ≡ spec.option_writes_field fields.now locals.now (option_map expr_view value.now) }
{
    match value {
        None => false,
        Some(value) => expression_writes_field(fields, locals, value),
    }
}

/// Whether one of two expressions writes a field.
fn either_writes_field(fields: &Scope, locals: &Scope, first: &Expr, second: &Expr) -> bool
    ensures { result ≡ (spec.expr_writes_field fields.now locals.now (expr_view first.now)
        || spec.expr_writes_field fields.now locals.now (expr_view second.now)) }
{
    expression_writes_field(fields, locals, first)
        || expression_writes_field(fields, locals, second)
}

/// Whether an expression writes a field.
#[cycle(expression)]
fn expression_writes_field(fields: &Scope, locals: &Scope, value: &Expr) -> bool
    ensures { result ≡ spec.expr_writes_field fields.now locals.now (expr_view value.now) }
{
    match value {
        Expr::Number(_) | Expr::Truth(_) | Expr::Read(_) | Expr::Pop => false,
        Expr::Element(_, inner)
        | Expr::Peek(_, inner)
        | Expr::Group(inner)
        | Expr::Unary(_, inner) => { expression_writes_field(fields, locals, inner) }
        Expr::Call(_, arguments) => arguments_write_field(fields, locals, arguments),
        Expr::Step(_, stepped) => is_field(fields, locals, stepped),
        Expr::StepElement(_, array, index) => {
            is_field(fields, locals, array) || expression_writes_field(fields, locals, index)
        }
        Expr::Binary(_, left, right) => {
            expression_writes_field(fields, locals, left)
                || expression_writes_field(fields, locals, right)
        }
        Expr::Conditional(condition, chosen, other) => {
            expression_writes_field(fields, locals, condition)
                || (expression_writes_field(fields, locals, chosen)
                    || expression_writes_field(fields, locals, other))
        }
    }
}

/// Whether one of the arguments of a call writes a field.
#[cycle(expression)]
fn arguments_write_field(fields: &Scope, locals: &Scope, arguments: &[Expr]) -> bool
    ensures { result ≡ spec.exprs_write_field fields.now locals.now (listed_view arguments.now) }
{
    for argument in arguments {
        if expression_writes_field(fields, locals, argument) {
            return true;
        }
    }
    false
}

/// Whether a name is that of a field where these local variables can be seen.
fn is_field(fields: &Scope, locals: &Scope, name: &Name) -> bool
    ensures { result ≡ spec.is_field fields.now locals.now name.now }
{
    !locals.has(name) && fields.has(name)
}
