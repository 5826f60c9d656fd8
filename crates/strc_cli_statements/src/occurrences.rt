// The statements in which something occurs that can fault: those of a body, of the helper functions
// that it may call, and of what a filter starts with, in order of the text.

ghost use Rattle.std.specs.Prelude.{◌≡◌, ◌+◌, ◌++◌, IfOk, IfSome, IfNone, OnOk, None, map};
ghost use Rattle.std.specs.Prelude.{replicate};
ghost use Rattle.std.specs.List.{list_all};
ghost use Rattle.std.specs.Option.{option_map};
ghost use Rattle.strc_lex_names.specs.declared.place.Span.{Span};
ghost use Rattle.strc_parse_tree.specs.View.{expr_view, variable_view, listed_view};
ghost use Rattle.strc_cli_statements.specs.Occurrences as spec;
ghost use Rattle.strc_cli_statements.specs.OccurrencePlaces.{stmt_places, block_places};
ghost use Rattle.strc_cli_statements.specs.OccurrencePlaces.{member_places};
ghost use Rattle.strc_cli_statements.specs.OccurrencePlaces.{start_places, helper_places};
ghost use Rattle.strc_cli_statements.specs.OccurrencePlaces.{helpers_places};
ghost use Rattle.strc_cli_statements.specs.OccurrencePlaces.{single_place, begins_at};
ghost use Rattle.strc_cli_statements.specs.OccurrencePlaces.{BlockPlacesAreCounted};
ghost use Rattle.strc_cli_statements.specs.OccurrencePlaces.{StartPlacesAreCounted};
ghost use Rattle.strc_cli_statements.specs.OccurrencePlaces.{HelpersPlacesAreCounted};
ghost use Rattle.strc_cli_statements.specs.declared.occurrences.Sought.TheVariants.{Call, Turn};

use std::alloc::Global;
use strc_lex_names::memory::NoMemory;
use strc_lex_names::place::Span;
use strc_parse_tree::tree::{AssignOperator, BinaryOperator, Expr, Member, Stmt, Variable};
use strc_rate_intervals::constant::constant;
use strc_work_meaning::fault::Cause;

/// What is looked for.
#[derive(Clone, Copy, PartialEq)]
pub enum Sought {
    /// A division, or a remainder, by what can be zero.
    Division,
    /// An element of an array.
    Element,
    Peek,
    /// A loop or a call, which count turns.
    Turn,
    /// A call of a helper function.
    Call,
}

/// A walk over a body.
#[derive(Drop)]
struct Walk {
    sought: Sought,
    /// Of each occurrence the innermost statement with a place.
    found: Vec<Option<Span>>,
}

/// Of each occurrence in a body the statement that it is in.
pub fn occurrences(
    alloc: Global,
    block: &[Stmt],
    sought: Sought,
) -> Result<Vec<Option<Span>>, NoMemory>
    ensures { IfOk result (λ found. found.items ≡ block_places sought None block.now) }
{
    let mut walk = Walk {
        sought,
        found: Vec::new(alloc),
    };
    walk_block(block, None, &mut walk)?;
    let Walk { sought: _, found } = walk;
    Ok(found)
}

/// Of each occurrence in a body, and then in the helper functions among the filter's members, any
/// of which the body may call, the statement that it is in.
pub fn occurrences_in_firing(
    alloc: Global,
    members: &[Member],
    block: &[Stmt],
    sought: Sought,
) -> Result<Vec<Option<Span>>, NoMemory>
    ensures { IfOk result (λ found. found.items ≡ block_places sought None block.now
        ++ helpers_places sought members.now) }
{
    let mut walk = Walk {
        sought,
        found: occurrences(alloc, block, sought)?,
    };
    for member in members {
        walk_helper(member, &mut walk)?;
    }
    let Walk { sought: _, found } = walk;
    Ok(found)
}

/// Of each call in the helper functions among a filter's members the statement that it is in. Only
/// such a call can be one too many at once: one of a body or of what a filter starts with is the
/// first that runs.
pub fn nested_calls(alloc: Global, members: &[Member]) -> Result<Vec<Option<Span>>, NoMemory>
    ensures { IfOk result (λ found. found.items ≡ helpers_places Call members.now) }
{
    occurrences_in_firing(alloc, members, &[], Sought::Call)
}

/// Of each occurrence in what a filter starts with the statement that it is in: the initialisers of
/// its fields, `init`, and the helper functions, any of which may be called there.
pub fn occurrences_at_start(
    alloc: Global,
    members: &[Member],
    sought: Sought,
) -> Result<Vec<Option<Span>>, NoMemory>
    ensures { IfOk result (λ found. found.items ≡ start_places sought members.now) }
{
    let mut walk = Walk {
        sought,
        found: Vec::new(alloc),
    };
    for member in members {
        walk_member(member, &mut walk)?;
    }
    let Walk { sought: _, found } = walk;
    Ok(found)
}

/// There are as many places as occurrences.
pub fn places_are_counted()
    ensures block { BlockPlacesAreCounted }
    ensures start { StartPlacesAreCounted }
    ensures helpers { HelpersPlacesAreCounted }
{}

fn walk_member(member: &Member, walk: &mut Walk) -> Result<(), NoMemory>
    ensures marks { OnOk result (walk.new.found.items ≡ walk.old.found.items
        ++ member_places walk.old.sought member.now) }
    ensures sought { OnOk result (walk.new.sought ≡ walk.old.sought) }
{
    match member {
        Member::Fields(fields) => walk_variables(&fields.variables, Some(fields.place), walk),
        Member::Init(block) => walk_block(block, None, walk),
        Member::Prework(_, _) | Member::Work(_, _) => Ok(()),
        Member::Helper(_, _, _, _) => walk_helper(member, walk),
    }
}

fn walk_helper(member: &Member, walk: &mut Walk) -> Result<(), NoMemory>
    ensures marks { OnOk result (walk.new.found.items ≡ walk.old.found.items
        ++ helper_places walk.old.sought member.now) }
    ensures sought { OnOk result (walk.new.sought ≡ walk.old.sought) }
{
    match member {
        Member::Helper(_, _, _, body) => walk_block(body, None, walk),
        _ => Ok(()),
    }
}

#[cycle(statement)]
fn walk_block(block: &[Stmt], here: Option<Span>, walk: &mut Walk) -> Result<(), NoMemory>
    ensures marks { OnOk result (walk.new.found.items ≡ walk.old.found.items
        ++ block_places walk.old.sought here block.now) }
    ensures sought { OnOk result (walk.new.sought ≡ walk.old.sought) }
{
    for statement in block {
        walk_statement(statement, here, walk)?;
    }
    Ok(())
}

#[cycle(statement)]
fn walk_statement(statement: &Stmt, here: Option<Span>, walk: &mut Walk) -> Result<(), NoMemory>
    ensures marks { OnOk result (walk.new.found.items ≡ walk.old.found.items
        ++ stmt_places walk.old.sought here statement.now) }
    ensures sought { OnOk result (walk.new.sought ≡ walk.old.sought) }
{
    match statement {
        Stmt::Empty | Stmt::Compose(_) => Ok(()),
        Stmt::Block(body) => walk_block(body, here, walk),
        Stmt::Placed(place, inner) => walk_statement(inner, Some(*place), walk),
        Stmt::Declare(declared) => walk_variables(&declared.variables, here, walk),
        Stmt::Evaluate(value) | Stmt::Push(value) | Stmt::Print(value) | Stmt::Println(value) => {
            walk_expression(value, here, walk)
        }
        Stmt::Return(value) => walk_option(value, here, walk),
        Stmt::Assign(_, operator, value) => {
            walk_expression(value, here, walk)?;
            walk.assigned(*operator, value, here)
        }
        Stmt::AssignElement(_, index, operator, value) => {
            walk_expression(index, here, walk)?;
            walk_expression(value, here, walk)?;
            walk.meet(Sought::Element, here)?;
            walk.assigned(*operator, value, here)
        }
        Stmt::If(condition, chosen) => {
            walk_expression(condition, here, walk)?;
            walk_statement(chosen, here, walk)
        }
        Stmt::IfElse(condition, chosen, other) => {
            walk_expression(condition, here, walk)?;
            walk_statement(chosen, here, walk)?;
            walk_statement(other, here, walk)
        }
        Stmt::While(condition, body) => {
            walk.meet(Sought::Turn, here)?;
            walk_expression(condition, here, walk)?;
            walk_statement(body, here, walk)
        }
        Stmt::For(first, condition, step, body) => {
            walk.meet(Sought::Turn, here)?;
            walk_statement(first, here, walk)?;
            walk_option(condition, here, walk)?;
            walk_statement(step, here, walk)?;
            walk_statement(body, here, walk)
        }
    }
}

fn walk_variables(
    variables: &[Variable],
    here: Option<Span>,
    walk: &mut Walk,
) -> Result<(), NoMemory>
    ensures marks { OnOk result (walk.new.found.items ≡ walk.old.found.items
        ++ replicate (spec.variables_count walk.old.sought (map variable_view variables.now))
        here) }
    ensures sought { OnOk result (walk.new.sought ≡ walk.old.sought) }
{
    for variable in variables {
        walk_option(&variable.initial, here, walk)?;
    }
    Ok(())
}

fn walk_option(value: &Option<Expr>, here: Option<Span>, walk: &mut Walk) -> Result<(), NoMemory>
    ensures marks { OnOk result (walk.new.found.items ≡ walk.old.found.items
        ++ replicate (spec.option_count walk.old.sought (option_map expr_view value.now)) here) }
    ensures sought { OnOk result (walk.new.sought ≡ walk.old.sought) }
{
    match value {
        Some(value) => walk_expression(value, here, walk),
        None => Ok(()),
    }
}

#[cycle(expression)]
fn walk_expression(value: &Expr, here: Option<Span>, walk: &mut Walk) -> Result<(), NoMemory>
    ensures marks { OnOk result (walk.new.found.items ≡ walk.old.found.items
        ++ replicate (spec.expression_count walk.old.sought (expr_view value.now)) here) }
    ensures sought { OnOk result (walk.new.sought ≡ walk.old.sought) }
{
    match value {
        Expr::Number(_) | Expr::Truth(_) | Expr::Read(_) | Expr::Pop | Expr::Step(_, _) => Ok(()),
        Expr::Group(inner) | Expr::Unary(_, inner) => walk_expression(inner, here, walk),
        Expr::Peek(_, index) => {
            walk_expression(index, here, walk)?;
            walk.meet(Sought::Peek, here)
        }
        Expr::Call(_, arguments) => {
            walk_arguments(arguments, here, walk)?;
            walk.called(here)
        }
        Expr::Element(_, index) | Expr::StepElement(_, _, index) => {
            walk_expression(index, here, walk)?;
            walk.meet(Sought::Element, here)
        }
        Expr::Binary(operator, left, right) => {
            walk_expression(left, here, walk)?;
            walk_expression(right, here, walk)?;
            if divides(operator.kind()) && can_be_zero(right) {
                walk.meet(Sought::Division, here)?;
            }
            Ok(())
        }
        Expr::Conditional(condition, chosen, other) => {
            walk_expression(condition, here, walk)?;
            walk_expression(chosen, here, walk)?;
            walk_expression(other, here, walk)
        }
    }
}

#[cycle(expression)]
fn walk_arguments(arguments: &[Expr], here: Option<Span>, walk: &mut Walk) -> Result<(), NoMemory>
    ensures marks { OnOk result (walk.new.found.items ≡ walk.old.found.items
        ++ replicate (spec.arguments_count walk.old.sought (listed_view arguments.now)) here) }
    ensures sought { OnOk result (walk.new.sought ≡ walk.old.sought) }
{
    for argument in arguments {
        walk_expression(argument, here, walk)?;
    }
    Ok(())
}

/// What can have a fault of this cause.
pub fn sought_for(cause: Cause) -> Sought
    ensures { result ≡ spec.sought_for cause }
{
    match cause {
        Cause::DivZero => Sought::Division,
        Cause::Index => Sought::Element,
        Cause::PeekRange => Sought::Peek,
        Cause::Turns => Sought::Turn,
        Cause::Calls => Sought::Call,
    }
}

/// The place that all these are.
pub fn single(places: &[Option<Span>]) -> Option<Span>
    ensures { result ≡ single_place places.now }
{
    let first = (*places.first()?)?;
    if all_begin_at(places, first.start) {
        Some(first)
    } else {
        None
    }
}

fn all_begin_at(places: &[Option<Span>], start: usize) -> bool
    ensures { result ≡ list_all (begins_at start) places.now }
{
    places.iter().all(|place| is_begun_at(*place, start))
}

fn is_begun_at(place: Option<Span>, start: usize) -> bool
    ensures { result ≡ begins_at start place }
{
    match place {
        Some(place) => place.start == start,
        None => false,
    }
}

impl Walk {
    /// Something occurs in a statement.
    fn meet(&mut self, occurs: Sought, here: Option<Span>) -> Result<(), NoMemory>
        ensures marks { OnOk result (self.new.found.items ≡ self.old.found.items
            ++ replicate (spec.one self.old.sought occurs) here) }
        ensures sought { OnOk result (self.new.sought ≡ self.old.sought) }
    {
        if self.sought == occurs {
            self.found.push(here)?;
        }
        Ok(())
    }

    /// A helper function is called, which counts a turn.
    fn called(&mut self, here: Option<Span>) -> Result<(), NoMemory>
        ensures marks { OnOk result (self.new.found.items ≡ self.old.found.items
            ++ replicate (spec.one self.old.sought Call + spec.one self.old.sought Turn) here) }
        ensures sought { OnOk result (self.new.sought ≡ self.old.sought) }
    {
        self.meet(Sought::Call, here)?;
        self.meet(Sought::Turn, here)
    }

    /// A value is assigned, by an operator that may divide by it.
    fn assigned(
        &mut self,
        operator: AssignOperator,
        value: &Expr,
        here: Option<Span>,
    ) -> Result<(), NoMemory>
        ensures marks { OnOk result (self.new.found.items ≡ self.old.found.items
            ++ replicate (spec.division self.old.sought (spec.assigns_quotient operator)
            (expr_view value.now)) here) }
        ensures sought { OnOk result (self.new.sought ≡ self.old.sought) }
    {
        match operator {
            AssignOperator::Divide | AssignOperator::Remainder if can_be_zero(value) => {
                self.meet(Sought::Division, here)
            }
            _ => Ok(()),
        }
    }
}

fn divides(operator: BinaryOperator) -> bool
    ensures { result ≡ spec.divides operator }
{
    match operator {
        BinaryOperator::Divide | BinaryOperator::Remainder => true,
        _ => false,
    }
}

fn can_be_zero(value: &Expr) -> bool
    ensures { result ≡ spec.can_be_zero (expr_view value.now) }
{
    match constant(value) {
        Some(number) => number == 0,
        None => true,
    }
}
