// The nodes of expressions, statements and streams, made of their parts.

ghost use Rattle.std.specs.Prelude.{◌≡◌, IfOk, map};
ghost use Rattle.std.specs.Box.{box_value};
ghost use Rattle.std.specs.Option.{option_map};
ghost use Rattle.strc_parse_tree.specs.View.{expr_view, stmt_view, rate_view, member_view};
ghost use Rattle.strc_parse_tree.specs.View.{child_view};
ghost use Rattle.strc_parse_tree.specs.View.{IsPlacedAt};
ghost use Rattle.strc_parse_tree.specs.Made.{IsIfOf, IsIfElseOf, IsWhileOf, IsForOf};
ghost use Rattle.strc_parse_tree.specs.declared.tree.Stmt.TheVariants as stmt;
ghost use Rattle.strc_parse_tree.specs.declared.tree.Member.TheVariants as member;
ghost use Rattle.strc_parse_tree.specs.declared.tree.Child.TheVariants as child;
ghost use Rattle.strc_parse_tree.specs.Tree.{row, chain, arguments_of};
ghost use Rattle.strc_parse_tree.specs.Tree as tree;

use crate::operator::{Operator, Origin};
use crate::tree::{
    Child, CompositeKind, Expr, HelperType, Member, RateTree, StepOperator, Stmt, StreamType,
    UnaryOperator,
};
use std::alloc::{AllocError, Global};
use strc_lex_names::name::Name;
use strc_lex_names::place::Span;

/// `x`, or `x[i]`.
pub fn read_of(alloc: Global, name: Name, index: Option<Expr>) -> Result<Expr, AllocError>
    ensures { IfOk result (λ e. expr_view e ≡ tree.read_of name (option_map expr_view index)) }
{
    match index {
        None => Ok(Expr::Read(name)),
        Some(index) => Ok(Expr::Element(name, Box::new(alloc, index)?)),
    }
}

/// `x++`, or `x[i]++`.
pub fn step_of(
    alloc: Global,
    operator: StepOperator,
    name: Name,
    index: Option<Expr>,
) -> Result<Expr, AllocError>
    ensures { IfOk result (λ e. expr_view e ≡ tree.step_of_place operator name
        (option_map expr_view index)) }
{
    match index {
        None => Ok(Expr::Step(operator, name)),
        Some(index) => Ok(Expr::StepElement(operator, name, Box::new(alloc, index)?)),
    }
}

pub fn peek_of(alloc: Global, origin: Origin, index: Expr) -> Result<Expr, AllocError>
    ensures { IfOk result (λ e. expr_view e ≡ tree.Peek (expr_view index)) }
{
    Ok(Expr::Peek(origin, Box::new(alloc, index)?))
}

pub fn call_of(name: Name, arguments: Vec<Expr>) -> Expr
    ensures { expr_view result ≡ tree.Call name (arguments_of (map expr_view arguments.items)) }
{
    Expr::Call(name, arguments)
}

pub fn group_of(alloc: Global, inner: Expr) -> Result<Expr, AllocError>
    ensures { IfOk result (λ e. expr_view e ≡ tree.Group (expr_view inner)) }
{
    Ok(Expr::Group(Box::new(alloc, inner)?))
}

pub fn unary_of(alloc: Global, operator: UnaryOperator, operand: Expr) -> Result<Expr, AllocError>
    ensures { IfOk result (λ e. expr_view e ≡ tree.Unary operator (expr_view operand)) }
{
    Ok(Expr::Unary(operator, Box::new(alloc, operand)?))
}

pub fn binary_of(
    alloc: Global,
    operator: Operator,
    left: Expr,
    right: Expr,
) -> Result<Expr, AllocError>
    ensures { IfOk result (λ e. expr_view e ≡ tree.Binary operator (expr_view left)
        (expr_view right)) }
{
    let (right, left) = boxed_after(alloc, right, left)?;
    let (left, right) = boxed_after(alloc, left, right)?;
    Ok(Expr::Binary(operator, left, right))
}

pub fn conditional_of(
    alloc: Global,
    condition: Expr,
    chosen: Expr,
    other: Expr,
) -> Result<Expr, AllocError>
    ensures { IfOk result (λ e. expr_view e ≡ tree.Conditional (expr_view condition)
        (expr_view chosen) (expr_view other)) }
{
    let (condition, chosen, other) = boxed(alloc, condition, chosen, other)?;
    let (parts, condition) = boxed_after(alloc, (chosen, other), condition)?;
    let (chosen, other) = parts;
    Ok(Expr::Conditional(condition, chosen, other))
}

#[tactic(auto, using(crate::proofs::Views::stmt_view_block))]
pub fn block_of(body: Vec<Stmt>) -> Stmt
    ensures view { stmt_view result ≡ tree.Block (row (map stmt_view body.items)) }
    ensures made { result ≡ stmt.Block body }
{
    Stmt::Block(body)
}

pub fn if_of(alloc: Global, condition: Expr, chosen: Stmt) -> Result<Stmt, AllocError>
    ensures view { IfOk result (λ s.
        stmt_view s ≡ tree.If (expr_view condition) (stmt_view chosen)) }
    ensures made { IfOk result (IsIfOf condition chosen) }
{
    let (condition, chosen) = boxed_after(alloc, condition, chosen)?;
    Ok(Stmt::If(condition, chosen))
}

/// The last two parts in boxes, beside the first one. It is generic, so that what is dropped where
/// memory runs out is a call, and not the parts' own glue.
fn boxed<A: Drop, B: Drop, C: Drop>(
    alloc: Global,
    first: A,
    second: B,
    third: C,
) -> Result<(A, Box<B>, Box<C>), AllocError>
    ensures { IfOk result (λ parts. (parts.0 ≡ first) × (box_value parts.1 ≡ second)
        × (box_value parts.2 ≡ third)) }
{
    let second = Box::new(alloc, second)?;
    let third = Box::new(alloc, third)?;
    Ok((first, second, third))
}

/// The last part in a box, beside the first one.
fn boxed_after<A: Drop, B: Drop>(
    alloc: Global,
    first: A,
    second: B,
) -> Result<(A, Box<B>), AllocError>
    ensures { IfOk result (λ parts. (parts.0 ≡ first) × (box_value parts.1 ≡ second)) }
{
    let second = Box::new(alloc, second)?;
    Ok((first, second))
}

pub fn if_else_of(
    alloc: Global,
    condition: Expr,
    chosen: Stmt,
    other: Stmt,
) -> Result<Stmt, AllocError>
    ensures view { IfOk result (λ s. stmt_view s ≡ tree.IfElse (expr_view condition)
        (stmt_view chosen) (stmt_view other)) }
    ensures made { IfOk result (IsIfElseOf condition chosen other) }
{
    let (condition, chosen, other) = boxed(alloc, condition, chosen, other)?;
    Ok(Stmt::IfElse(condition, chosen, other))
}

pub fn while_of(alloc: Global, condition: Expr, body: Stmt) -> Result<Stmt, AllocError>
    ensures view { IfOk result (λ s.
        stmt_view s ≡ tree.While (expr_view condition) (stmt_view body)) }
    ensures made { IfOk result (IsWhileOf condition body) }
{
    let (condition, body) = boxed_after(alloc, condition, body)?;
    Ok(Stmt::While(condition, body))
}

pub fn for_of(
    alloc: Global,
    first: Stmt,
    condition: Option<Expr>,
    step: Stmt,
    body: Stmt,
) -> Result<Stmt, AllocError>
    ensures view { IfOk result (λ s. stmt_view s ≡
        tree.For (stmt_view first) (option_map expr_view condition) (stmt_view step)
        (stmt_view body)) }
    ensures made { IfOk result (IsForOf first condition step body) }
{
    Ok(Stmt::For(
        Box::new(alloc, first)?,
        condition,
        Box::new(alloc, step)?,
        Box::new(alloc, body)?,
    ))
}

/// The same statement, with where it is written.
pub fn placed_of(alloc: Global, place: Span, statement: Stmt) -> Result<Stmt, AllocError>
    ensures same { IfOk result (λ s. stmt_view s ≡ stmt_view statement) }
    ensures placed { IfOk result (IsPlacedAt place statement) }
{
    Ok(Stmt::Placed(place, Box::new(alloc, statement)?))
}

#[tactic(auto, using(crate::proofs::Views::member_view_init))]
pub fn init_of(block: Vec<Stmt>) -> Member
    ensures view { member_view result ≡ tree.Init (row (map stmt_view block.items)) }
    ensures made { result ≡ member.Init block }
{
    Member::Init(block)
}

#[tactic(auto, using(crate::proofs::Views::member_view_prework))]
pub fn prework_of(rates: Vec<RateTree>, block: Vec<Stmt>) -> Member
    ensures view { member_view result ≡ tree.Prework (map rate_view rates.items)
        (row (map stmt_view block.items)) }
    ensures made { result ≡ member.Prework rates block }
{
    Member::Prework(rates, block)
}

#[tactic(auto, using(crate::proofs::Views::member_view_work))]
pub fn work_of(rates: Vec<RateTree>, block: Vec<Stmt>) -> Member
    ensures view { member_view result ≡ tree.Work (map rate_view rates.items)
        (row (map stmt_view block.items)) }
    ensures made { result ≡ member.Work rates block }
{
    Member::Work(rates, block)
}

pub fn helper_of(kind: HelperType, name: Name, parameters: Vec<Name>, block: Vec<Stmt>) -> Member
    ensures view { member_view result ≡ tree.Helper kind name parameters.items
        (row (map stmt_view block.items)) }
    ensures made { result ≡ member.Helper kind name parameters block }
{
    Member::Helper(kind, name, parameters, block)
}

/// A filter without a name.
pub fn filter_of(types: StreamType, members: Vec<Member>) -> Child
    ensures view { child_view result ≡ tree.AnonymousFilter types
        (chain (map member_view members.items)) }
    ensures made { result ≡ child.Filter types members }
{
    Child::Filter(types, members)
}

/// A composite stream without a name.
pub fn composite_of(types: Option<StreamType>, kind: CompositeKind, block: Vec<Stmt>) -> Child
    ensures view { child_view result ≡ tree.AnonymousComposite types kind
        (row (map stmt_view block.items)) }
    ensures made { result ≡ child.Composite types kind block }
{
    Child::Composite(types, kind, block)
}
