// A filter's bodies: their rates and blocks, and whether they print.

ghost use Rattle.std.specs.Prelude.{◌≡◌, max, map, is_some};
ghost use Rattle.std.specs.Option.{option_map};
ghost use Rattle.strc_parse_tree.specs.View.{expr_view, stmt_view, block_view, rate_view};
ghost use Rattle.strc_work_meaning.specs.Filters as filters;
ghost use Rattle.strc_work_code.specs.Bodies.{body_statements, work_statements, prework_statements};
ghost use Rattle.strc_work_code.specs.Lowered as lowered;

use crate::limits::FiringLimits;
use strc_parse_tree::tree::{Expr, Member, RateKind, RateTree, Stmt};
use strc_work_meaning::body::Body;

/// Whether there is a prework.
pub fn has_prework(members: &[Member]) -> bool
    ensures { result ≡ is_some (filters.prework_block (filters.members_of members.now)) }
{
    for member in members {
        if let Member::Prework(_, _) = member {
            return true;
        }
    }
    false
}

/// The rates of a body; without a prework each body is the work.
pub fn rates_of(members: &[Member], body: Body) -> &[RateTree]
    ensures { map rate_view result.now ≡ filters.body_rates body (filters.members_of members.now) }
{
    match body {
        Body::Prework => match prework_rates(members) {
            Some(rates) => rates,
            None => work_rates(members),
        },
        Body::Work => work_rates(members),
    }
}

/// The rates of the first work.
fn work_rates(members: &[Member]) -> &[RateTree]
    ensures { map rate_view result.now ≡ filters.work_rates (filters.members_of members.now) }
{
    for member in members {
        if let Member::Work(rates, _) = member {
            return rates;
        }
    }
    &[]
}

/// The rates of the first prework, where there is one.
fn prework_rates(members: &[Member]) -> Option<&[RateTree]>
    ensures { option_map (λ rates. map rate_view rates.now) result
        ≡ filters.prework_rates (filters.members_of members.now) }
{
    for member in members {
        if let Member::Prework(rates, _) = member {
            return Some(rates);
        }
    }
    None
}

/// The block of a body; without a prework each body is the work.
pub fn block_of(members: &[Member], body: Body) -> &[Stmt]
    ensures placed { result.now ≡ body_statements body members.now }
    ensures statements { block_view result.now
        ≡ filters.body_block body (filters.members_of members.now) }
{
    match body {
        Body::Prework => match prework_block(members) {
            Some(block) => block,
            None => work_block(members),
        },
        Body::Work => work_block(members),
    }
}

/// The block of the first work.
fn work_block(members: &[Member]) -> &[Stmt]
    ensures placed { result.now ≡ work_statements members.now }
    ensures statements { block_view result.now
        ≡ filters.work_block (filters.members_of members.now) }
{
    for member in members {
        match member {
            Member::Work(_, block) => return block,
            Member::Fields(_)
            | Member::Init(_)
            | Member::Prework(_, _)
            | Member::Helper(_, _, _, _) => {}
        }
    }
    &[]
}

/// The block of the first prework, where there is one.
fn prework_block(members: &[Member]) -> Option<&[Stmt]>
    ensures placed { option_map (λ block. block.now) result ≡ prework_statements members.now }
    ensures statements { option_map (λ block. block_view block.now) result
        ≡ filters.prework_block (filters.members_of members.now) }
{
    for member in members {
        match member {
            Member::Prework(_, block) => return Some(block),
            Member::Fields(_) | Member::Init(_) | Member::Work(_, _) | Member::Helper(_, _, _, _) =>
                {}
        }
    }
    None
}

/// What a body of these rates may pop, look at and push.
pub fn limits_of(rates: &[RateTree]) -> FiringLimits
    ensures { result ≡ lowered.limits_of (map rate_view rates.now) }
{
    let pops = item_count(rate_of(rates, RateKind::Pop));
    let peeks = item_count(peek_rate(rates));
    FiringLimits {
        pops,
        peek: pops.max(peeks),
        pushes: item_count(rate_of(rates, RateKind::Push)),
    }
}

/// The peek rate; a missing one is the pop rate.
pub fn peek_rate(rates: &[RateTree]) -> i32
    ensures { result ≡ filters.peek_rate (map rate_view rates.now) }
{
    if has_rate(rates, RateKind::Peek) {
        rate_of(rates, RateKind::Peek)
    } else {
        rate_of(rates, RateKind::Pop)
    }
}

/// Whether a rate of a kind is written.
fn has_rate(rates: &[RateTree], kind: RateKind) -> bool
    ensures { result ≡ filters.has_rate kind (map rate_view rates.now) }
{
    for rate in rates {
        if same_kind(kind, rate.kind) {
            return true;
        }
    }
    false
}

/// The first rate of a kind; a missing one is 0.
pub fn rate_of(rates: &[RateTree], kind: RateKind) -> i32
    ensures { result ≡ filters.rate_of kind (map rate_view rates.now) }
{
    for rate in rates {
        if same_kind(kind, rate.kind) {
            return rate_number(&rate.rate);
        }
    }
    0
}

fn same_kind(first: RateKind, second: RateKind) -> bool
    ensures { result ≡ filters.same_kind first second }
{
    match (first, second) {
        (RateKind::Push, RateKind::Push)
        | (RateKind::Pop, RateKind::Pop)
        | (RateKind::Peek, RateKind::Peek) => true,
        _ => false,
    }
}

/// The number of a rate: constants are substituted.
fn rate_number(rate: &Expr) -> i32
    ensures { result ≡ filters.rate_number (expr_view rate.now) }
{
    match rate {
        Expr::Number(number) => *number,
        _ => 0,
    }
}

/// A rate as a number of items: none where it is below 0.
fn item_count(rate: i32) -> u32
    ensures { result ≡ filters.item_count rate }
{
    if rate < 0 { 0 } else { rate as u32 }
}

/// Whether statements print.
pub fn block_prints(block: &[Stmt]) -> bool
    ensures { result ≡ filters.stmts_print (block_view block.now) }
{
    for statement in block {
        if stmt_prints(statement) {
            return true;
        }
    }
    false
}

fn stmt_prints(statement: &Stmt) -> bool
    ensures { result ≡ filters.stmt_prints (stmt_view statement.now) }
{
    match statement {
        Stmt::Block(body) => {
            for inner in body {
                if stmt_prints(inner) {
                    return true;
                }
            }
            false
        }
        Stmt::Print(_) | Stmt::Println(_) => true,
        Stmt::If(_, body) | Stmt::While(_, body) | Stmt::Placed(_, body) => stmt_prints(body),
        Stmt::IfElse(_, chosen, other) => stmt_prints(chosen) || stmt_prints(other),
        Stmt::For(first, _, step, body) => {
            stmt_prints(first) || stmt_prints(step) || stmt_prints(body)
        }
        Stmt::Empty
        | Stmt::Return(_)
        | Stmt::Compose(_)
        | Stmt::Declare(_)
        | Stmt::Evaluate(_)
        | Stmt::Assign(_, _, _)
        | Stmt::AssignElement(_, _, _, _)
        | Stmt::Push(_) => false,
    }
}
