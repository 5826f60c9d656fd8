// What a text counts, and which of its peeks stay within their window, or can't reach into it. One
// walk counts what it passes, so that it knows how many items are popped before each peek; after a
// counted loop it adds the pops of the turns before to those of the peeks in its body.

ghost use Rattle.std.specs.Prelude.{◌≡◌, [], IfOk, IfSome, None, Some, map};
ghost use Rattle.std.specs.Option.{option_map};
ghost use Rattle.strc_parse_tree.specs.Tree as tree;
ghost use Rattle.strc_parse_tree.specs.View.{expr_view, variable_view, stmt_view, block_view};
ghost use Rattle.strc_rate.specs.Counts as counting;
ghost use Rattle.strc_rate.specs.Counts.{branch_counts, repeated, stmt_counts};
ghost use Rattle.strc_rate.specs.Entries.{peeks_of_stmt};
ghost use Rattle.strc_rate.specs.Peeks as spec;
ghost use Rattle.strc_rate.specs.Peeks.{sides_sites, stmt_sites};
ghost use Rattle.strc_rate.specs.Walk.{IsPassed, VariablesArePassed, StmtIsPassed, InnerIsPassed};
ghost use Rattle.strc_rate.specs.Walk.{BlockIsPassed, TurnsArePassed};
ghost use Rattle.strc_rate_intervals.specs.Intervals.{names_of};
ghost use Rattle.strc_rate_intervals.specs.Intervals.{with_interval, turns_interval};
ghost use Rattle.strc_rate_intervals.specs.Seen.{loop_view};

use crate::counts::{Counts, Need, if_equal, no_items, one_push, repeated, require_zero, sequence};
use crate::expression_peeks::{
    check_peeks_in_expression, check_peeks_in_operands, check_peeks_in_option,
};
use crate::sight::{
    PeekBounds, PeekSite, PopInterval, add_in_turns, advance, none_popped, sights_of,
};
use crate::unreachable_peeks::skip_statement;
use std::alloc::Global;
use strc_lex_names::memory::NoMemory;
use strc_parse_tree::tree::{Expr, Stmt, Variable};
use strc_rate_intervals::constant::constant;
use strc_rate_intervals::interval_scope::IntervalScope;
use strc_rate_intervals::loops::{CountedLoop, counted_loop};

/// What is known of a body.
#[derive(Drop)]
pub struct BodyPeeks {
    /// How many items a run pushes and pops, where that can be counted.
    pub counts: Option<Counts>,
    /// What is known of each peek, in order of the text.
    pub sights: Vec<PeekBounds>,
}

/// What is known of the statements of a body whose firing may look at so many items.
pub fn body_peeks(alloc: Global, block: &[Stmt], window: u32) -> Result<BodyPeeks, NoMemory>
    ensures counts { IfOk result (λ reported. reported.counts
        ≡ counting.stmts_counts [] (block_view block.now)) }
    ensures sights { IfOk result (λ reported. reported.sights.items
        ≡ spec.body_sights window (block_view block.now)) }
{
    let mut names = IntervalScope::new(alloc);
    let mut sites = Vec::new(alloc);
    let counts = check_peeks_in_block(block, &mut names, none_popped(), &mut sites)?;
    let sights = sights_of(alloc, window, &sites)?;
    Ok(BodyPeeks { counts, sights })
}

/// Adds a site for each peek of statements in a row, in order of the text, and gives the counts of
/// the statements.
#[cycle(statement)]
fn check_peeks_in_block(
    block: &[Stmt],
    names: &mut IntervalScope,
    popped: PopInterval,
    sites: &mut Vec<PeekSite>,
) -> Result<Option<Counts>, NoMemory>
    ensures { IfOk result (λ counts. BlockIsPassed names.old popped (block_view block.now) counts
        sites.old.items sites.new.items names.new) }
{
    let outside = names.len();
    let mut counts = Some(no_items());
    let mut here = popped;
    for statement in block {
        let passed = check_peeks_in_statement(statement, names, here, sites)?;
        here = advance(here, passed);
        counts = sequence(counts, passed);
    }
    names.leave(outside);
    Ok(counts)
}

/// The same of a statement, which may add to the names.
#[cycle(statement)]
#[tactic(auto, using(crate::proofs::Passing::nothing_passed))]
fn check_peeks_in_statement(
    statement: &Stmt,
    names: &mut IntervalScope,
    popped: PopInterval,
    sites: &mut Vec<PeekSite>,
) -> Result<Option<Counts>, NoMemory>
    ensures { IfOk result (λ counts. StmtIsPassed names.old popped (stmt_view statement.now) counts
        sites.old.items sites.new.items names.new) }
{
    match statement {
        Stmt::Empty | Stmt::Return(_) | Stmt::Compose(_) => Ok(Some(no_items())),
        Stmt::Block(body) => check_peeks_in_block(body, names, popped, sites),
        Stmt::Placed(_, inner) => check_peeks_in_statement(inner, names, popped, sites),
        Stmt::Declare(declared) => {
            check_peeks_in_variables(&declared.variables, names, popped, sites)
        }
        Stmt::Evaluate(value)
        | Stmt::Assign(_, _, value)
        | Stmt::Print(value)
        | Stmt::Println(value) => check_peeks_in_expression(value, names, popped, sites),
        Stmt::AssignElement(_, index, _, value) => {
            check_peeks_in_operands(Need::Always, index, value, names, popped, sites)
        }
        Stmt::Push(value) => check_peeks_in_push(value, names, popped, sites),
        Stmt::If(condition, chosen) => {
            check_peeks_in_if(condition, chosen, names, popped, sites)
        }
        Stmt::IfElse(condition, chosen, other) => {
            check_peeks_in_if_else(condition, chosen, other, names, popped, sites)
        }
        Stmt::While(condition, body) => {
            check_peeks_in_while(condition, body, names, popped, sites)
        }
        Stmt::For(first, condition, step, body) => {
            check_peeks_in_for(first, condition, step, body, names, popped, sites)
        }
    }
}

/// The same of a statement whose names end with it.
#[cycle(statement)]
fn look_inside(
    statement: &Stmt,
    names: &mut IntervalScope,
    popped: PopInterval,
    sites: &mut Vec<PeekSite>,
) -> Result<Option<Counts>, NoMemory>
    ensures { IfOk result (λ counts. InnerIsPassed names.old popped (stmt_view statement.now) counts
        sites.old.items sites.new.items names.new) }
{
    let outside = names.len();
    let counts = check_peeks_in_statement(statement, names, popped, sites)?;
    names.leave(outside);
    Ok(counts)
}

/// The same of a branch without another one.
#[cycle(statement)]
fn check_peeks_in_if(
    condition: &Expr,
    chosen: &Stmt,
    names: &mut IntervalScope,
    popped: PopInterval,
    sites: &mut Vec<PeekSite>,
) -> Result<Option<Counts>, NoMemory>
    ensures { IfOk result (λ counts. StmtIsPassed names.old popped
        (tree.If (expr_view condition.now) (stmt_view chosen.now)) counts
        sites.old.items sites.new.items names.new) }
{
    let test = check_peeks_in_expression(condition, names, popped, sites)?;
    let here = advance(popped, test);
    let known = constant(condition);
    let taken = check_peeks_in_branch(known, chosen, names, here, sites)?;
    Ok(sequence(test, taken))
}

/// The same of a single branch after a condition, of which a constant one may never take it.
#[cycle(statement)]
fn check_peeks_in_branch(
    condition: Option<i32>,
    chosen: &Stmt,
    names: &mut IntervalScope,
    popped: PopInterval,
    sites: &mut Vec<PeekSite>,
) -> Result<Option<Counts>, NoMemory>
    ensures { IfOk result (λ counts. IsPassed (branch_counts condition
        (stmt_counts (names_of names.old) (stmt_view chosen.now)) (Some counting.no_items))
        (sides_sites condition (stmt_sites names.old popped (stmt_view chosen.now)) []
        (peeks_of_stmt (stmt_view chosen.now)) []) names.old
        counts sites.old.items sites.new.items names.new) }
{
    match condition {
        Some(0) => {
            skip_statement(chosen, sites)?;
            Ok(Some(no_items()))
        }
        Some(_) => look_inside(chosen, names, popped, sites),
        None => {
            let counts = look_inside(chosen, names, popped, sites)?;
            Ok(if_equal(counts, Some(no_items())))
        }
    }
}

/// The same of two branches.
#[cycle(statement)]
fn check_peeks_in_if_else(
    condition: &Expr,
    chosen: &Stmt,
    other: &Stmt,
    names: &mut IntervalScope,
    popped: PopInterval,
    sites: &mut Vec<PeekSite>,
) -> Result<Option<Counts>, NoMemory>
    ensures { IfOk result (λ counts. StmtIsPassed names.old popped
        (tree.IfElse (expr_view condition.now) (stmt_view chosen.now) (stmt_view other.now)) counts
        sites.old.items sites.new.items names.new) }
{
    let test = check_peeks_in_expression(condition, names, popped, sites)?;
    let here = advance(popped, test);
    let known = constant(condition);
    let taken = check_peeks_in_branches(known, chosen, other, names, here, sites)?;
    Ok(sequence(test, taken))
}

/// The same of both branches after a condition, of which a constant one never takes one.
#[cycle(statement)]
fn check_peeks_in_branches(
    condition: Option<i32>,
    chosen: &Stmt,
    other: &Stmt,
    names: &mut IntervalScope,
    popped: PopInterval,
    sites: &mut Vec<PeekSite>,
) -> Result<Option<Counts>, NoMemory>
    ensures { let locals = names_of names.old in
        IfOk result (λ counts. IsPassed (branch_counts condition
        (stmt_counts locals (stmt_view chosen.now)) (stmt_counts locals (stmt_view other.now)))
        (sides_sites condition (stmt_sites names.old popped (stmt_view chosen.now))
        (stmt_sites names.old popped (stmt_view other.now)) (peeks_of_stmt (stmt_view chosen.now))
        (peeks_of_stmt (stmt_view other.now))) names.old
        counts sites.old.items sites.new.items names.new) }
{
    match condition {
        Some(0) => {
            skip_statement(chosen, sites)?;
            look_inside(other, names, popped, sites)
        }
        Some(_) => {
            let counts = look_inside(chosen, names, popped, sites)?;
            skip_statement(other, sites)?;
            Ok(counts)
        }
        None => {
            let chosen = look_inside(chosen, names, popped, sites)?;
            let other = look_inside(other, names, popped, sites)?;
            Ok(if_equal(chosen, other))
        }
    }
}

/// The same of a loop with a condition alone, whose turns aren't counted.
#[cycle(statement)]
fn check_peeks_in_while(
    condition: &Expr,
    body: &Stmt,
    names: &mut IntervalScope,
    popped: PopInterval,
    sites: &mut Vec<PeekSite>,
) -> Result<Option<Counts>, NoMemory>
    ensures { IfOk result (λ counts. StmtIsPassed names.old popped
        (tree.While (expr_view condition.now) (stmt_view body.now)) counts
        sites.old.items sites.new.items names.new) }
{
    let test = check_peeks_in_expression(condition, names, popped, sites)?;
    let body = look_inside(body, names, popped, sites)?;
    Ok(sequence(require_zero(test), require_zero(body)))
}

/// The same of a `for`, whose first part is seen in all of it.
#[cycle(statement)]
fn check_peeks_in_for(
    first: &Stmt,
    condition: &Option<Expr>,
    step: &Stmt,
    body: &Stmt,
    names: &mut IntervalScope,
    popped: PopInterval,
    sites: &mut Vec<PeekSite>,
) -> Result<Option<Counts>, NoMemory>
    ensures { IfOk result (λ counts. StmtIsPassed names.old popped
        (tree.For (stmt_view first.now) (option_map expr_view condition.now) (stmt_view step.now)
        (stmt_view body.now)) counts sites.old.items sites.new.items names.new) }
{
    let counted = counted_loop(names, first, condition, step, body);
    let outside = names.len();
    let begun = check_peeks_in_statement(first, names, popped, sites)?;
    let here = advance(popped, begun);
    let turned = check_peeks_in_turns(counted, condition, step, body, names, here, sites)?;
    names.leave(outside);
    Ok(sequence(begun, turned))
}

/// The same of the turns of a `for`.
#[cycle(statement)]
fn check_peeks_in_turns(
    counted: Option<CountedLoop>,
    condition: &Option<Expr>,
    step: &Stmt,
    body: &Stmt,
    names: &mut IntervalScope,
    popped: PopInterval,
    sites: &mut Vec<PeekSite>,
) -> Result<Option<Counts>, NoMemory>
    requires { IfSome counted (λ found. found.interval ≡ turns_interval (loop_view found)) }
    ensures { IfOk result (λ counts. TurnsArePassed names.old popped
        (option_map loop_view counted.entry) (option_map expr_view condition.now)
        (stmt_view step.now) (stmt_view body.now) counts
        sites.old.items sites.new.items names.new) }
{
    match counted {
        Some(counted) => check_peeks_in_counted_turns(counted, body, names, popped, sites),
        None => check_peeks_in_unknown_turns(condition, step, body, names, popped, sites),
    }
}

/// The same of the turns of a counted loop, in which its variable has an interval. No run comes to
/// the peeks of a loop of no turn.
#[cycle(statement)]
fn check_peeks_in_counted_turns(
    counted: CountedLoop,
    body: &Stmt,
    names: &mut IntervalScope,
    popped: PopInterval,
    sites: &mut Vec<PeekSite>,
) -> Result<Option<Counts>, NoMemory>
    ensures { let within = with_interval names.old counted.entry.name.now counted.entry.interval in
        let items = stmt_counts (names_of names.old) (stmt_view body.now) in
        IfOk result (λ counts. IsPassed (counting.repeated counted.entry.turns items)
        (spec.some_turns counted.entry.turns
        (stmt_sites within (spec.in_turns popped counted.entry.turns items) (stmt_view body.now))
        (peeks_of_stmt (stmt_view body.now))) names.old
        counts sites.old.items sites.new.items names.new) }
{
    if counted.turns == 0 {
        skip_statement(body, sites)?;
        return Ok(Some(no_items()));
    }
    let mut inner = Vec::new(*sites.allocator());
    let counts = check_peeks_in_turn(&counted, body, names, popped, &mut inner)?;
    add_in_turns(sites, &inner, counted.turns, counts)?;
    Ok(repeated(counted.turns, counts))
}

/// The same of one turn of a counted loop.
#[cycle(statement)]
fn check_peeks_in_turn(
    counted: &CountedLoop,
    body: &Stmt,
    names: &mut IntervalScope,
    popped: PopInterval,
    sites: &mut Vec<PeekSite>,
) -> Result<Option<Counts>, NoMemory>
    ensures { let within = with_interval names.old counted.now.name.now counted.now.interval in
        IfOk result (λ counts. IsPassed
        (stmt_counts (names_of names.old) (stmt_view body.now))
        (stmt_sites within popped (stmt_view body.now)) names.old
        counts sites.old.items sites.new.items names.new) }
{
    let before = names.interval_of(counted.name);
    names.give_interval(counted.name, Some(counted.interval));
    let counts = look_inside(body, names, popped, sites)?;
    names.give_interval(counted.name, before);
    Ok(counts)
}

/// The same of the turns of a loop that isn't counted.
#[cycle(statement)]
fn check_peeks_in_unknown_turns(
    condition: &Option<Expr>,
    step: &Stmt,
    body: &Stmt,
    names: &mut IntervalScope,
    popped: PopInterval,
    sites: &mut Vec<PeekSite>,
) -> Result<Option<Counts>, NoMemory>
    ensures { IfOk result (λ counts. TurnsArePassed names.old popped None
        (option_map expr_view condition.now) (stmt_view step.now) (stmt_view body.now) counts
        sites.old.items sites.new.items names.new) }
{
    let test = check_peeks_in_option(condition, names, popped, sites)?;
    let step = look_inside(step, names, popped, sites)?;
    let body = look_inside(body, names, popped, sites)?;
    Ok(sequence(
        require_zero(test),
        sequence(require_zero(step), require_zero(body)),
    ))
}

/// The same of what is pushed.
fn check_peeks_in_push(
    value: &Expr,
    names: &IntervalScope,
    popped: PopInterval,
    sites: &mut Vec<PeekSite>,
) -> Result<Option<Counts>, NoMemory>
    ensures { IfOk result (λ counts. StmtIsPassed names.now popped (tree.Push (expr_view value.now))
        counts sites.old.items sites.new.items names.now) }
{
    let counts = check_peeks_in_expression(value, names, popped, sites)?;
    Ok(sequence(counts, Some(one_push())))
}

/// The same of the initialisers of a declaration, whose variables are added to the names.
fn check_peeks_in_variables(
    variables: &[Variable],
    names: &mut IntervalScope,
    popped: PopInterval,
    sites: &mut Vec<PeekSite>,
) -> Result<Option<Counts>, NoMemory>
    ensures { IfOk result (λ counts. VariablesArePassed names.old popped
        (map variable_view variables.now) counts sites.old.items sites.new.items names.new) }
{
    let mut counts = Some(no_items());
    let mut here = popped;
    for variable in variables {
        let passed = check_peeks_in_option(&variable.initial, names, here, sites)?;
        names.declare(&variable.name)?;
        here = advance(here, passed);
        counts = sequence(counts, passed);
    }
    Ok(counts)
}
