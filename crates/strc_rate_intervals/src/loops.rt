// Counted loops: `for` loops whose number of turns is known from their text.

ghost use Rattle.std.specs.Prelude.{◌≡◌, ◌≤◌, ◌*◌, ◌+◌, ◌^◌, ◌+ℤ◌, ◌*ℤ◌, pos, unsigned_abs, IfSome};
ghost use Rattle.std.specs.Prelude.{map, if◌then◌else◌};
ghost use Rattle.std.specs.Option.{option_and_then, option_map};
ghost use Rattle.strc_parse_tree.specs.View.{expr_view, type_view, variable_view, stmt_view};
ghost use Rattle.strc_rate_intervals.specs.Loops as spec;
ghost use Rattle.strc_rate_intervals.specs.Intervals.{names_of};
ghost use Rattle.strc_rate_intervals.specs.Intervals.{turns_interval};
ghost use Rattle.strc_rate_intervals.specs.Seen.{first_view, loop_view};

use crate::constant::constant;
use crate::interval::{Interval, between, to_i32};
use crate::interval_scope::IntervalScope;
use strc_lex_names::name::Name;
use strc_parse_tree::tree::{
    AssignOperator, BinaryOperator, Expr, StepOperator, Stmt, Variable, VariableType,
};
use strc_work_writes::writes::{same_name, statement_writes};

/// A comparison of the loop's variable with its bound.
#[derive(Clone, Copy)]
pub struct Bound {
    pub operator: BinaryOperator,
    pub limit: i32,
}

/// A variable and its first value.
#[derive(Drop)]
pub struct First<'a> {
    pub name: &'a Name,
    pub value: i32,
}

/// A counted loop: its variable, the first value, by how much each turn moves it, and the number of
/// turns.
#[derive(Drop)]
pub struct CountedLoop<'a> {
    pub name: &'a Name,
    pub start: i32,
    pub step: i64,
    pub turns: u64,
    /// The values of the variable in the turns.
    pub interval: Interval,
}

/// The counted loop that a `for` is, where its first part, its condition and its step are of these
/// forms, and its body doesn't write its variable.
pub fn counted_loop<'a>(
    names: &IntervalScope,
    first: &'a Stmt,
    condition: &Option<Expr>,
    step: &Stmt,
    body: &Stmt,
) -> Option<CountedLoop<'a>>
    ensures counted { option_map loop_view result
        ≡ spec.counted_loop (names_of names.now) (stmt_view first.now)
        (option_map expr_view condition.now) (stmt_view step.now) (stmt_view body.now) }
    ensures interval { IfSome result (λ found. found.interval ≡ turns_interval (loop_view found)) }
{
    let first = first_of(first, names)?;
    let bound = option_bound(condition, first.name)?;
    let step = move_of(step, first.name)?;
    let counted = loop_of(first.name, first.value, bound, step)?;
    // The body may be long, so it is looked at last.
    if statement_writes(body, first.name) {
        return None;
    }
    Some(counted)
}

/// The first part of a loop: one local variable is given a constant, and nothing else.
fn first_of<'a>(first: &'a Stmt, names: &IntervalScope) -> Option<First<'a>>
    ensures { option_map first_view result ≡ spec.first_of (names_of names.now)
        (stmt_view first.now) }
{
    match first {
        Stmt::Declare(declared) => first_declared(&declared.kind, &declared.variables),
        Stmt::Assign(name, AssignOperator::Set, value) => {
            if !names.has(name) {
                return None;
            }
            let value = constant(value)?;
            Some(First { name, value })
        }
        Stmt::Placed(_, inner) => first_of(inner, names),
        _ => None,
    }
}

/// One variable that is declared with a constant.
fn first_declared<'a>(kind: &VariableType, variables: &'a [Variable]) -> Option<First<'a>>
    ensures { option_map first_view result ≡ spec.first_declared (type_view kind.now)
        (map variable_view variables.now) }
{
    match kind {
        VariableType::Int => match variables {
            [only] => match &only.initial {
                Some(initial) => {
                    let value = constant(initial)?;
                    Some(First {
                        name: &only.name,
                        value,
                    })
                }
                None => None,
            },
            _ => None,
        },
        _ => None,
    }
}

fn option_bound(condition: &Option<Expr>, name: &Name) -> Option<Bound>
    ensures { result ≡ option_and_then (spec.bound_of name.now)
        (option_map expr_view condition.now) }
{
    match condition {
        Some(condition) => bound_of(condition, name),
        None => None,
    }
}

/// `V < b`, `V <= b`, `V > b` or `V >= b` with a constant b.
fn bound_of(condition: &Expr, name: &Name) -> Option<Bound>
    ensures { result ≡ spec.bound_of name.now (expr_view condition.now) }
{
    match condition {
        Expr::Binary(operator, left, right) => {
            if !(is_order(operator.kind()) && is_variable(left, name)) {
                return None;
            }
            let limit = constant(right)?;
            Some(Bound {
                operator: operator.kind(),
                limit,
            })
        }
        _ => None,
    }
}

fn is_order(operator: BinaryOperator) -> bool
    ensures { result ≡ spec.is_order operator }
{
    match operator {
        BinaryOperator::Less
        | BinaryOperator::LessOrEqual
        | BinaryOperator::Greater
        | BinaryOperator::GreaterOrEqual => true,
        _ => false,
    }
}

/// Whether an expression is the variable of a name.
fn is_variable(value: &Expr, name: &Name) -> bool
    ensures { result ≡ spec.is_variable name.now (expr_view value.now) }
{
    match value {
        Expr::Read(read) => same_name(read, name),
        _ => false,
    }
}

/// By how much the step of a loop moves its variable: at most 2^31 up or down.
fn move_of(step: &Stmt, name: &Name) -> Option<i64>
    ensures moved { result ≡ spec.move_of name.now (stmt_view step.now) }
    ensures small { IfSome result (λ moved. unsigned_abs moved ≤ 2 ^ 31) }
{
    match step {
        Stmt::Evaluate(Expr::Step(operator, stepped)) => {
            if same_name(stepped, name) {
                Some(step_move(*operator))
            } else {
                None
            }
        }
        Stmt::Assign(assigned, operator, value) => {
            if same_name(assigned, name) {
                assign_move(*operator, value, name)
            } else {
                None
            }
        }
        Stmt::Placed(_, inner) => move_of(inner, name),
        _ => None,
    }
}

/// `V++`, `++V`, `V--` or `--V`.
fn step_move(operator: StepOperator) -> i64
    ensures moved { result ≡ spec.step_move operator }
    ensures small { unsigned_abs result ≤ 2 ^ 31 }
{
    match operator {
        StepOperator::IncrementFirst | StepOperator::IncrementAfter => 1,
        StepOperator::DecrementFirst | StepOperator::DecrementAfter => -1,
    }
}

/// `V += c`, `V -= c`, `V = V + c` or `V = V - c`.
fn assign_move(operator: AssignOperator, value: &Expr, name: &Name) -> Option<i64>
    ensures moved { result ≡ spec.assign_move name.now operator (expr_view value.now) }
    ensures small { IfSome result (λ moved. unsigned_abs moved ≤ 2 ^ 31) }
{
    match operator {
        AssignOperator::Set => sum_move(value, name),
        AssignOperator::Add => moved_by(BinaryOperator::Add, value),
        AssignOperator::Subtract => moved_by(BinaryOperator::Subtract, value),
        _ => None,
    }
}

/// `V + c` or `V - c`.
fn sum_move(value: &Expr, name: &Name) -> Option<i64>
    ensures moved { result ≡ spec.sum_move name.now (expr_view value.now) }
    ensures small { IfSome result (λ moved. unsigned_abs moved ≤ 2 ^ 31) }
{
    match value {
        Expr::Binary(operator, left, right) => {
            if is_variable(left, name) {
                moved_by(operator.kind(), right)
            } else {
                None
            }
        }
        _ => None,
    }
}

/// By how much a sum or a difference with a constant moves, in whole numbers.
fn moved_by(operator: BinaryOperator, value: &Expr) -> Option<i64>
    ensures moved { result ≡ spec.moved_by operator (expr_view value.now) }
    ensures small { IfSome result (λ moved. unsigned_abs moved ≤ 2 ^ 31) }
{
    match operator {
        BinaryOperator::Add => match constant(value) {
            Some(value) => Some(i64::from(value)),
            None => None,
        },
        BinaryOperator::Subtract => match constant(value) {
            Some(value) => Some(-i64::from(value)),
            None => None,
        },
        _ => None,
    }
}

/// How far it is from a value to the nearest one at which the condition is false; below 1 where it
/// is false already.
fn distance(operator: BinaryOperator, value: i32, limit: i32) -> i64
    ensures far { result ≡ spec.distance operator value limit }
    ensures small { unsigned_abs result ≤ 2 ^ 32 }
{
    let (value, limit) = (i64::from(value), i64::from(limit));
    match operator {
        BinaryOperator::Less => limit - value,
        BinaryOperator::LessOrEqual => limit - value + 1,
        BinaryOperator::Greater => value - limit,
        BinaryOperator::GreaterOrEqual => value - limit + 1,
        _ => 0,
    }
}

/// By how much a move comes nearer to where the condition is false.
fn step_toward_bound(operator: BinaryOperator, step: i64) -> i64
    requires { unsigned_abs step ≤ 2 ^ 31 }
    ensures nearer { result ≡ spec.step_toward_bound operator step }
    ensures same { unsigned_abs result ≡ unsigned_abs step }
{
    match operator {
        BinaryOperator::Less | BinaryOperator::LessOrEqual => step,
        _ => -step,
    }
}

/// The least number of moves after which a distance is gone.
fn trip_count(distance: i64, step_toward_bound: i64) -> Option<u64>
    ensures moves { result ≡ spec.trip_count distance step_toward_bound }
    ensures few { IfSome result (λ moves. moves ≤ unsigned_abs distance) }
    ensures near { IfSome result (λ moves. moves * unsigned_abs step_toward_bound
        ≤ unsigned_abs distance + unsigned_abs step_toward_bound) }
{
    if distance <= 0 {
        return Some(0);
    }
    if step_toward_bound <= 0 {
        return None;
    }
    Some(
        distance
            .unsigned_abs()
            .div_ceil(step_toward_bound.unsigned_abs()),
    )
}

fn loop_of(name: &Name, start: i32, bound: Bound, step: i64) -> Option<CountedLoop>
    requires { unsigned_abs step ≤ 2 ^ 31 }
    ensures counted { option_map loop_view result
        ≡ spec.loop_of (record { name = name.now; value = start }) bound step }
    ensures interval { IfSome result (λ found. found.interval ≡ turns_interval (loop_view found)) }
{
    let away = distance(bound.operator, start, bound.limit);
    let nearer = step_toward_bound(bound.operator, step);
    match trip_count(away, nearer) {
        Some(turns) => loop_within_i32(name, start, step, turns),
        None => None,
    }
}

/// A loop that ends within 32 bits.
fn loop_within_i32(name: &Name, start: i32, step: i64, turns: u64) -> Option<CountedLoop>
    requires turns { turns ≤ 2 ^ 32 }
    requires moves { turns * unsigned_abs step ≤ 2 ^ 33 }
    ensures counted { option_map loop_view result ≡ spec.loop_within_i32 (record {
      name = name.now;
      start = start;
      move = step;
      turns = turns;
    }) }
    ensures interval { IfSome result (λ found. found.interval ≡ turns_interval (loop_view found)) }
{
    let end = value_within(start, step, turns);
    if end.is_none() {
        return None;
    }
    // The last value is between the first one and the one after it.
    match value_within(start, step, turns.saturating_sub(1)) {
        Some(last) => Some(CountedLoop {
            name,
            start,
            step,
            turns,
            interval: between(start, last),
        }),
        None => None,
    }
}

/// The value after so many turns, where 32 bits hold it.
fn value_within(start: i32, step: i64, turns: u64) -> Option<i32>
    requires turns { turns ≤ 2 ^ 32 }
    requires moves { turns * unsigned_abs step ≤ 2 ^ 33 }
    ensures { let value = start +ℤ pos turns *ℤ step in result
        ≡ (if spec.within_32_bits value then Some value else None) }
{
    to_i32(value_after(start, step, turns))
}

/// The value after so many turns.
fn value_after(start: i32, step: i64, turns: u64) -> i64
    requires turns { turns ≤ 2 ^ 32 }
    requires moves { turns * unsigned_abs step ≤ 2 ^ 33 }
    ensures { result ≡ start +ℤ pos turns *ℤ step }
{
    i64::from(start) + turns as i64 * step
}
