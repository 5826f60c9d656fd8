// Where a helper function may return before its end.

ghost use Rattle.std.specs.Prelude.{◌≡◌};
ghost use Rattle.strc_parse_tree.specs.View.{stmt_view};
ghost use Rattle.strc_work_meaning.specs.Returns as returns;

use strc_parse_tree::tree::Stmt;

/// Whether a `return` stands in a statement.
pub fn stmt_returns(statement: &Stmt) -> bool
    ensures { result ≡ returns.stmt_returns (stmt_view statement.now) }
{
    match statement {
        Stmt::Block(body) => {
            for inner in body {
                if stmt_returns(inner) {
                    return true;
                }
            }
            false
        }
        Stmt::Return(_) => true,
        Stmt::If(_, body) | Stmt::While(_, body) | Stmt::Placed(_, body) => stmt_returns(body),
        Stmt::IfElse(_, chosen, other) => stmt_returns(chosen) || stmt_returns(other),
        Stmt::For(first, _, step, body) => {
            stmt_returns(first) || stmt_returns(step) || stmt_returns(body)
        }
        Stmt::Empty
        | Stmt::Compose(_)
        | Stmt::Declare(_)
        | Stmt::Evaluate(_)
        | Stmt::Assign(_, _, _)
        | Stmt::AssignElement(_, _, _, _)
        | Stmt::Push(_)
        | Stmt::Print(_)
        | Stmt::Println(_) => false,
    }
}
