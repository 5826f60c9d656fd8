// The code of statements.

ghost use Rattle.std.specs.Prelude.{◌≡◌, ◌+◌, true, false, pos, ◌∷◌, Some, IfOk, OnOk, map};
ghost use Rattle.std.specs.Option.{option_map};
ghost use Rattle.strc_parse_tree.specs.View.{expr_view, variable_view, stmt_view, block_view};
ghost use Rattle.strc_parse_tree.specs.Tree as tree;
ghost use Rattle.strc_work_code.specs.Nodes.{End, Choice, Loop, before};
ghost use Rattle.strc_work_code.specs.Lowering as spec;
ghost use Rattle.strc_work_code.specs.declared.inst.Inst.TheVariants as act;
ghost use Rattle.strc_work_meaning.specs.Scoping.{answer_name, names_after, slot_of, total};
ghost use Rattle.strc_work_meaning.specs.Scoping.{with_declared};
ghost use Rattle.strc_work_lowering.specs.Emission.{output_step};
ghost use Rattle.strc_work_lowering.specs.Written.{written};

use crate::builder::Builder;
use crate::expression_code::{
    emit_assign, emit_assign_element, emit_evaluation, emit_expr, emit_operand,
};
use crate::layout::Layout;
use crate::operands::{cells_of, slot_past, zeros_step};
use strc_lex_names::memory::NoMemory;
use strc_lex_names::name::Name;
use strc_parse_tree::operator::Origin;
use strc_parse_tree::tree::{Expr, Stmt, Variable};
use strc_work_code::inst::Inst;
use strc_work_code::returns::stmt_returns;

/// Where a value goes.
#[derive(Clone, Copy)]
enum Output {
    Push,
    Print,
    Println,
}

/// The code of a block of its own.
#[cycle(statement)]
pub fn emit_block(code: &mut Builder, names: &mut Layout, block: &[Stmt]) -> Result<(), NoMemory>
    ensures code { OnOk result (written code.new
        ≡ before (written code.old) (spec.stmts_nodes names.old false (block_view block.now))) }
    ensures names { OnOk result (names.new ≡ names.old) }
{
    let start = names.len();
    let mut returns = false;
    for statement in block {
        emit_after(code, names, returns, statement)?;
        returns |= stmt_returns(statement);
    }
    names.leave(start);
    Ok(())
}

/// The code of a statement, which is left out once the helper has returned where a `return` may
/// stand before it.
#[cycle(statement)]
fn emit_after(
    code: &mut Builder,
    names: &mut Layout,
    returns: bool,
    statement: &Stmt,
) -> Result<(), NoMemory>
    ensures code { OnOk result (written code.new ≡ before (written code.old)
        (spec.unless_answered names.old returns
        (spec.stmt_nodes names.old (stmt_view statement.now)))) }
    ensures names { OnOk result (names.new ≡ names_after names.old (stmt_view statement.now)) }
{
    if !returns {
        return emit_stmt(code, names, statement, 0);
    }
    let answer = answer_slot(names);
    let mut apart = Builder::new(names.allocator());
    emit_stmt(&mut apart, names, statement, 0)?;
    let nothing = Builder::new(names.allocator());
    code.put_choice(answer, nothing, apart)
}

/// The code of a statement, which is written at this mark: 0 where that isn't known.
#[cycle(statement)]
#[tactic(auto, using(strc_work_code::proofs::Nodes::before_end))]
fn emit_stmt(
    code: &mut Builder,
    names: &mut Layout,
    statement: &Stmt,
    mark: u32,
) -> Result<(), NoMemory>
    ensures code { OnOk result (written code.new
        ≡ before (written code.old) (spec.stmt_nodes names.old (stmt_view statement.now))) }
    ensures names { OnOk result (names.new ≡ names_after names.old (stmt_view statement.now)) }
{
    match statement {
        Stmt::Empty | Stmt::Compose(_) => Ok(()),
        Stmt::Block(body) => emit_block(code, names, body),
        Stmt::Placed(place, inner) => emit_stmt(code, names, inner, Origin::at(place.start).mark()),
        Stmt::Declare(declared) => {
            emit_variables(code, names, cells_of(&declared.kind), &declared.variables)
        }
        Stmt::Evaluate(value) => emit_evaluation(code, names, value, names.total()),
        Stmt::Assign(name, operator, value) => emit_assign(code, names, name, *operator, value),
        Stmt::AssignElement(name, index, operator, value) => {
            emit_assign_element(code, names, name, index, *operator, value)
        }
        Stmt::If(condition, chosen) => {
            let chosen = emit_apart(names, chosen)?;
            let other = Builder::new(names.allocator());
            emit_choice(code, names, condition, chosen, other)
        }
        Stmt::IfElse(condition, chosen, other) => {
            let chosen = emit_apart(names, chosen)?;
            let other = emit_apart(names, other)?;
            emit_choice(code, names, condition, chosen, other)
        }
        Stmt::While(condition, body) => {
            let turn = emit_apart(names, body)?;
            emit_while(code, names, condition, stmt_returns(body), turn, mark)
        }
        Stmt::For(first, condition, step, body) => {
            emit_for(code, names, first, condition, step, body, mark)
        }
        Stmt::Push(value) => emit_output(code, names, Output::Push, value),
        Stmt::Print(value) => emit_output(code, names, Output::Print, value),
        Stmt::Println(value) => emit_output(code, names, Output::Println, value),
        Stmt::Return(value) => emit_return(code, names, value),
    }
}

/// The code of a `for` at this mark: its first statement is seen in all of it.
#[cycle(statement)]
#[tactic(auto, using(crate::proofs::Emitted::statements))]
fn emit_for(
    code: &mut Builder,
    names: &mut Layout,
    first: &Stmt,
    condition: &Option<Expr>,
    step: &Stmt,
    body: &Stmt,
    mark: u32,
) -> Result<(), NoMemory>
    ensures code { OnOk result (written code.new ≡ before (written code.old)
        (spec.stmt_nodes names.old (tree.For (stmt_view first.now)
        (option_map expr_view condition.now) (stmt_view step.now) (stmt_view body.now)))) }
    ensures names { OnOk result (names.new ≡ names.old) }
{
    let start = names.len();
    emit_stmt(code, names, first, 0)?;
    let mut turn = emit_apart(names, body)?;
    let returns = stmt_returns(body);
    emit_step(&mut turn, names, returns, step)?;
    emit_loop(code, names, condition, returns, turn, mark)?;
    names.leave(start);
    Ok(())
}

/// The code of a loop's step, in a scope of its own; it is left out once the helper has returned
/// where a `return` may stand in the loop's body.
#[cycle(statement)]
#[tactic(auto, using(crate::proofs::Emitted::left_after))]
fn emit_step(
    code: &mut Builder,
    names: &mut Layout,
    returns: bool,
    step: &Stmt,
) -> Result<(), NoMemory>
    ensures code { OnOk result (written code.new ≡ before (written code.old)
        (spec.unless_answered names.old returns
        (spec.stmt_nodes names.old (stmt_view step.now)))) }
    ensures names { OnOk result (names.new ≡ names.old) }
{
    let start = names.len();
    emit_after(code, names, returns, step)?;
    names.leave(start);
    Ok(())
}

/// The code of a statement in a scope of its own, apart from other code, to be written beside it.
#[cycle(statement)]
fn emit_apart(names: &mut Layout, statement: &Stmt) -> Result<Builder, NoMemory>
    ensures code { IfOk result (λ apart. written apart
        ≡ spec.stmt_nodes names.old (stmt_view statement.now)) }
    ensures names { OnOk result (names.new ≡ names.old) }
{
    let mut apart = Builder::new(names.allocator());
    emit_inside(&mut apart, names, statement)?;
    Ok(apart)
}

/// The code of a statement in a scope of its own.
#[cycle(statement)]
#[tactic(auto, using(crate::proofs::Emitted::left_after))]
fn emit_inside(code: &mut Builder, names: &mut Layout, statement: &Stmt) -> Result<(), NoMemory>
    ensures code { OnOk result (written code.new
        ≡ before (written code.old) (spec.stmt_nodes names.old (stmt_view statement.now))) }
    ensures names { OnOk result (names.new ≡ names.old) }
{
    let start = names.len();
    emit_stmt(code, names, statement, 0)?;
    names.leave(start);
    Ok(())
}

/// The code of one of two pieces of code by a condition.
#[tactic(auto, using(strc_work_code::proofs::Nodes::before_assoc))]
fn emit_choice(
    code: &mut Builder,
    names: &Layout,
    condition: &Expr,
    chosen: Builder,
    other: Builder,
) -> Result<(), NoMemory>
    ensures { OnOk result (written code.new ≡ before (written code.old)
        (before (spec.operand_nodes names.now true (expr_view condition.now) (total names.now))
        (Choice (spec.operand_slot names.now true (expr_view condition.now) (total names.now))
        (written chosen) (written other) End))) }
{
    let slot = emit_operand(code, names, condition, true, names.total())?;
    code.put_choice(slot, chosen, other)
}

/// The code of a loop at this mark whose turns are known, with a condition.
fn emit_while(
    code: &mut Builder,
    names: &Layout,
    condition: &Expr,
    returns: bool,
    turn: Builder,
    mark: u32,
) -> Result<(), NoMemory>
    ensures { OnOk result (written code.new ≡ before (written code.old)
        (Loop (spec.loop_test names.now returns (Some (expr_view condition.now)))
        (spec.loop_slot names.now returns (Some (expr_view condition.now))) (written turn) End)) }
{
    let mut test = Builder::new(names.allocator());
    let free = names.total();
    if returns {
        let mut held = Builder::new(names.allocator());
        emit_expr(&mut held, names, condition, free, names.after(free)?)?;
        emit_test_unless_answered(&mut test, names, held)?;
        return code.put_loop(test, free, turn, mark);
    }
    let slot = emit_operand(&mut test, names, condition, true, free)?;
    code.put_loop(test, slot, turn, mark)
}

/// The code of a loop at this mark whose turns are known, with a condition or without one.
fn emit_loop(
    code: &mut Builder,
    names: &Layout,
    condition: &Option<Expr>,
    returns: bool,
    turn: Builder,
    mark: u32,
) -> Result<(), NoMemory>
    ensures { OnOk result (written code.new ≡ before (written code.old)
        (Loop (spec.loop_test names.now returns (option_map expr_view condition.now))
        (spec.loop_slot names.now returns (option_map expr_view condition.now))
        (written turn) End)) }
{
    if let Some(condition) = condition {
        return emit_while(code, names, condition, returns, turn, mark);
    }
    let mut test = Builder::new(names.allocator());
    let free = names.total();
    if returns {
        let mut held = Builder::new(names.allocator());
        held.put(Inst::Const(free, 1))?;
        emit_test_unless_answered(&mut test, names, held)?;
    } else {
        // A loop without a condition goes on.
        test.put(Inst::Const(free, 1))?;
    }
    code.put_loop(test, free, turn, mark)
}

/// The code of a loop's test, which doesn't hold once the helper has returned; else what is held is
/// its value, in the first free slot.
#[tactic(auto, using(strc_work_code::proofs::Nodes::before_end))]
fn emit_test_unless_answered(
    test: &mut Builder,
    names: &Layout,
    held: Builder,
) -> Result<(), NoMemory>
    ensures { OnOk result (written test.new ≡ before (written test.old)
        (Choice (slot_of names.now answer_name) (spec.one (act.Const (total names.now) (pos 0)))
        (written held) End)) }
{
    let mut ended = Builder::new(names.allocator());
    ended.put(Inst::Const(names.total(), 0))?;
    test.put_choice(answer_slot(names), ended, held)
}

/// The code of a `return`.
#[tactic(auto, using(strc_work_code::proofs::Nodes::before_assoc))]
fn emit_return(code: &mut Builder, names: &Layout, value: &Option<Expr>) -> Result<(), NoMemory>
    ensures { OnOk result (written code.new ≡ before (written code.old)
        (spec.return_nodes names.now (option_map expr_view value.now))) }
{
    let answer = answer_slot(names);
    if let Some(value) = value {
        let into = names.after(answer)?;
        emit_expr(code, names, value, into, names.total())?;
    }
    code.put(Inst::Const(answer, 1))
}

/// The slot that tells whether the helper has returned.
fn answer_slot(names: &Layout) -> u32
    ensures { result ≡ slot_of names.now answer_name }
{
    let name = Name::new(Vec::new(names.allocator()));
    names.slot_of(&name)
}

/// The code that puts out an expression's value.
#[tactic(auto, using(strc_work_code::proofs::Nodes::before_assoc))]
fn emit_output(
    code: &mut Builder,
    names: &Layout,
    output: Output,
    value: &Expr,
) -> Result<(), NoMemory>
    ensures { OnOk result (written code.new ≡ before (written code.old)
        (spec.used_nodes names.now (expr_view value.now) (output_step output))) }
{
    let from = emit_operand(code, names, value, true, names.total())?;
    code.put(match output {
        Output::Push => Inst::Push(from),
        Output::Print => Inst::Print(from),
        Output::Println => Inst::Println(from),
    })
}

/// The code of variables that are declared one after another.
#[tactic(auto, using(strc_work_code::proofs::Nodes::joining))]
fn emit_variables(
    code: &mut Builder,
    names: &mut Layout,
    cells: u32,
    variables: &[Variable],
) -> Result<(), NoMemory>
    ensures code { OnOk result (written code.new
        ≡ before (written code.old) (spec.variables_nodes names.old cells
        (map variable_view variables.now))) }
    ensures names { OnOk result (names.new ≡ with_declared names.old cells
        (map variable_view variables.now)) }
{
    for variable in variables {
        emit_variable(code, names, cells, variable)?;
    }
    Ok(())
}

/// The code of a variable's declaration.
fn emit_variable(
    code: &mut Builder,
    names: &mut Layout,
    cells: u32,
    variable: &Variable,
) -> Result<(), NoMemory>
    ensures code { OnOk result (written code.new
        ≡ before (written code.old) (spec.initial_nodes names.old cells
        (option_map expr_view variable.now.initial) (total names.old) (total names.old + cells))) }
    ensures names { OnOk result (names.new ≡ record { 0 = variable.now.name; 1 = cells }
        ∷ names.old) }
{
    let into = names.total();
    match &variable.initial {
        None => code.put(zeros_step(into, cells))?,
        Some(value) => {
            let free = slot_past(*code.line.allocator(), into, cells)?;
            emit_expr(code, names, value, into, free)?;
        }
    }
    names.declare(&variable.name, cells)
}
