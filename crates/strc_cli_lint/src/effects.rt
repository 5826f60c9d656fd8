// What expressions and statements do beside giving a value.

use strc_parse_tree::tree::{Expr, Stmt};

/// Whether an expression changes a variable, takes an item or calls a helper function.
#[cycle(effect)]
pub(crate) fn has_effect(value: &Expr) -> bool {
    match value {
        Expr::Pop | Expr::Call(_, _) | Expr::Step(_, _) | Expr::StepElement(_, _, _) => true,
        Expr::Number(_) | Expr::Truth(_) | Expr::Read(_) => false,
        Expr::Element(_, inner)
        | Expr::Peek(_, inner)
        | Expr::Group(inner)
        | Expr::Unary(_, inner) => has_effect(inner),
        Expr::Binary(_, left, right) => has_effect(left) || has_effect(right),
        Expr::Conditional(condition, chosen, other) => {
            has_effect(condition) || has_effect(chosen) || has_effect(other)
        }
    }
}

/// Whether a statement is a `;` alone.
#[cycle(empty)]
pub(crate) fn is_empty(statement: &Stmt) -> bool {
    match statement {
        Stmt::Empty => true,
        Stmt::Placed(_, inner) => is_empty(inner),
        _ => false,
    }
}

/// Whether a block ends by `return` whatever is true.
#[cycle(ending)]
pub(crate) fn returns(block: &[Stmt]) -> bool {
    match block.split_last() {
        Some((last, _)) => ends_by_return(last),
        None => false,
    }
}

#[cycle(ending)]
fn ends_by_return(statement: &Stmt) -> bool {
    match statement {
        Stmt::Return(_) => true,
        Stmt::Placed(_, inner) => ends_by_return(inner),
        Stmt::Block(block) => returns(block),
        Stmt::IfElse(_, chosen, other) => ends_by_return(chosen) && ends_by_return(other),
        _ => false,
    }
}
