// Which statement of a body moves a number of items that can't be counted.

ghost use Rattle.std.specs.Prelude.{◌≡◌, suc, take, false, true, IfOk};
ghost use Rattle.strc_cli_statements.specs.Statements as spec;

use std::alloc::Global;
use strc_lex_names::memory::NoMemory;
use strc_lex_names::place::Span;
use strc_parse_tree::tree::Stmt;
use strc_rate::peeks::body_peeks;

/// The innermost statement of a block that can't be counted: one around the block where none of its
/// own has a place, and where the block can be counted by itself.
#[cycle(uncounted)]
pub fn uncounted(
    alloc: Global,
    block: &[Stmt],
    here: Option<Span>,
) -> Result<Option<Span>, NoMemory>
    ensures { IfOk result (λ place. place ≡ spec.uncounted_among here block.now) }
{
    if are_counted(alloc, block)? {
        return Ok(here);
    }
    match block.get(first_uncounted(alloc, block)?) {
        Some(statement) => uncounted_in(alloc, statement, here),
        None => Ok(here),
    }
}

/// The innermost one of a statement that can't be counted.
#[cycle(uncounted)]
fn uncounted_in(
    alloc: Global,
    statement: &Stmt,
    here: Option<Span>,
) -> Result<Option<Span>, NoMemory>
    ensures { IfOk result (λ place. place ≡ spec.uncounted_in here statement.now) }
{
    match statement {
        Stmt::Placed(place, inner) => uncounted_in(alloc, inner, Some(*place)),
        Stmt::Block(block) => uncounted(alloc, block, here),
        Stmt::If(_, body) | Stmt::While(_, body) | Stmt::For(_, _, _, body) => {
            uncounted_below(alloc, body, here)
        }
        Stmt::IfElse(_, chosen, other) => {
            if is_counted(alloc, chosen)? {
                uncounted_below(alloc, other, here)
            } else {
                uncounted_in(alloc, chosen, here)
            }
        }
        Stmt::Empty
        | Stmt::Declare(_)
        | Stmt::Evaluate(_)
        | Stmt::Assign(_, _, _)
        | Stmt::AssignElement(_, _, _, _)
        | Stmt::Push(_)
        | Stmt::Print(_)
        | Stmt::Println(_)
        | Stmt::Return(_)
        | Stmt::Compose(_) => Ok(here),
    }
}

/// The innermost one of a statement's body; the statement itself where its body can be counted.
#[cycle(uncounted)]
fn uncounted_below(alloc: Global, body: &Stmt, here: Option<Span>) -> Result<Option<Span>, NoMemory>
    ensures { IfOk result (λ place. place ≡ spec.uncounted_below here body.now) }
{
    if is_counted(alloc, body)? {
        Ok(here)
    } else {
        uncounted_in(alloc, body, here)
    }
}

/// The number of the first statement with which the items of a block can't be counted any more: the
/// last one of the shortest beginning that can't be.
fn first_uncounted(alloc: Global, block: &[Stmt]) -> Result<usize, NoMemory>
    requires { spec.are_counted block.now ≡ false }
    ensures before { IfOk result (λ number.
        spec.are_counted (take number block.now) ≡ true) }
    ensures with { IfOk result (λ number.
        spec.are_counted (take (suc number) block.now) ≡ false) }
{
    let mut least: usize = 0;
    let mut most = block.len();
    while most - least > 1 {
        let middle = least + (most - least) / 2;
        if are_counted(alloc, &block[..middle])? {
            least = middle;
        } else {
            most = middle;
        }
    }
    Ok(least)
}

/// Whether the items that statements move can be counted.
pub fn are_counted(alloc: Global, block: &[Stmt]) -> Result<bool, NoMemory>
    ensures { IfOk result (λ counted. counted ≡ spec.are_counted block.now) }
{
    Ok(body_peeks(alloc, block, 0)?.counts.is_some())
}

/// Whether the items of a body can be counted; of one without braces it isn't found out.
#[cycle(body)]
fn is_counted(alloc: Global, body: &Stmt) -> Result<bool, NoMemory>
    ensures { IfOk result (λ counted. counted ≡ spec.is_counted body.now) }
{
    match body {
        Stmt::Placed(_, inner) => is_counted(alloc, inner),
        Stmt::Block(block) => are_counted(alloc, block),
        Stmt::Empty
        | Stmt::Declare(_)
        | Stmt::Evaluate(_)
        | Stmt::Assign(_, _, _)
        | Stmt::AssignElement(_, _, _, _)
        | Stmt::If(_, _)
        | Stmt::IfElse(_, _, _)
        | Stmt::While(_, _)
        | Stmt::For(_, _, _, _)
        | Stmt::Push(_)
        | Stmt::Print(_)
        | Stmt::Println(_)
        | Stmt::Return(_)
        | Stmt::Compose(_) => Ok(true),
    }
}
