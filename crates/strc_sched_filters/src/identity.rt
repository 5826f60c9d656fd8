// Filters that do what `Identity` does.

ghost use Rattle.std.specs.Prelude.{◌≡◌, pos, true};
ghost use Rattle.strc_parse_tree.specs.Tree as tree;
ghost use Rattle.strc_parse_tree.specs.View.{block_view, stmt_view};
ghost use Rattle.strc_work_meaning.specs.Filters.{filter_of, members_of};
ghost use Rattle.strc_sched_filters.specs.Identities.{IsIdentity, IsOnlyWork, pushes_popped};

use strc_parse_tree::tree::{Expr, ItemType, Member, Stmt};
use strc_work_code::code::{Code, DeclaredRates};
use strc_work_meaning::body::Body;

/// Whether a filter is known to keep nothing and to give each item that it takes: it is
/// `work push 1 pop 1 { push(pop()); }`, with no other member.
pub fn is_identity(code: &Code) -> bool
    ensures { result ≡ true → IsIdentity (filter_of code.now) }
{
    let tree = code.tree();
    match tree.input {
        ItemType::Int => {
            is_only_work(&tree.members)
                && moves_one(code.rates(Body::Work))
                && is_passing(code.block(Body::Work))
        }
        ItemType::Void => false,
    }
}

/// Whether members are a work alone.
fn is_only_work(members: &[Member]) -> bool
    ensures { result ≡ true → IsOnlyWork (members_of members.now) }
{
    match members {
        [Member::Work(..)] => true,
        _ => false,
    }
}

/// Whether each firing takes one item, gives one, and looks at no other.
fn moves_one(rates: DeclaredRates) -> bool
    ensures push { result ≡ true → rates.push ≡ pos 1 }
    ensures pop { result ≡ true → rates.pop ≡ pos 1 }
    ensures peek { result ≡ true → rates.peek ≡ pos 1 }
{
    rates.push == 1 && rates.pop == 1 && rates.peek == 1
}

/// Whether statements are `push(pop());`.
fn is_passing(block: &[Stmt]) -> bool
    ensures { result ≡ true → block_view block.now ≡ pushes_popped }
{
    let [only] = block else {
        return false;
    };
    is_push_of_pop(only)
}

/// Whether a statement is `push(pop());`.
fn is_push_of_pop(statement: &Stmt) -> bool
    ensures { result ≡ true → stmt_view statement.now ≡ tree.Push tree.Pop }
{
    match statement {
        Stmt::Push(Expr::Pop) => true,
        Stmt::Placed(_, inner) => is_push_of_pop(inner),
        _ => false,
    }
}
