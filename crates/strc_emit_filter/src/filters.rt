// The functions of a filter.

ghost use Rattle.std.specs.Prelude.{◌≡◌, ◌++◌, ℕ, List, IfOk, OnOk, true, false};
ghost use Rattle.std.specs.Option.{option_map};
ghost use Rattle.strc_work_code.specs.declared.limits.FiringLimits.{FiringLimits};
ghost use Rattle.strc_work_meaning.specs.Filters as filters;
ghost use Rattle.strc_work_meaning.specs.declared.body.Body.{Body};
ghost use Rattle.strc_rate.specs.Ranges.{AllAreClosed};
ghost use Rattle.strc_rate.specs.Safe.{rates_of};
ghost use Rattle.strc_rate.specs.Verdicts.{rates_view};
ghost use Rattle.strc_emit_filter.specs.Filters as spec;

use crate::arrays::arrays_of;
use crate::bodies::push_body;
use crate::fields::{push_fields, slot_at};
use crate::helpers::push_helpers;
use std::alloc::Global;
use strc_emit_c::function::Function;
use strc_emit_text::pieces::Piece::{Bytes, Number};
use strc_emit_text::pieces::push_pieces;
use strc_lex_names::memory::NoMemory;
use strc_lex_names::scope::Scope;
use strc_parse_tree::tree::{ItemType, Member};
use strc_rate::rates::{RateError, Rates, check};
use strc_work_code::code::{Code, Routine};
use strc_work_code::helper::HelperCode;
use strc_work_code::limits::FiringLimits;
use strc_work_meaning::body::Body;

/// Adds the fields of a filter, with the values that they begin with, and the functions of its
/// helper functions and its bodies.
pub fn push_filter(
    text: &mut Vec<u8>,
    node: u32,
    code: &Code,
    values: &[i32],
) -> Result<(), NoMemory>
    ensures { OnOk result ((added : List ℕ) × spec.IsFilterText node code.now values.now added
        × (text.new.items ≡ text.old.items ++ added)) }
{
    let alloc = *text.allocator();
    let fields = slot_at(values.len())?;
    let arrays = arrays_of(alloc, code)?;
    let helpers = code.helpers();
    let names = names_of(alloc, helpers)?;
    let function = helper_function(node, fields, arrays, names);
    let tests = needs_tests(alloc, code)?;
    push_parts(
        text,
        function,
        tests,
        !has_helpers(code),
        values,
        helpers,
        prework_of(code),
        code.routine(Body::Work),
    )
}

/// Whether a filter has helper functions.
pub fn has_helpers(code: &Code) -> bool
    ensures { result ≡ spec.has_helpers code.now }
{
    among_members(&code.tree().members)
}

// Whether some of these members are.
fn among_members(members: &[Member]) -> bool
    ensures { result ≡ spec.among_members (filters.members_of members.now) }
{
    for member in members {
        if let Member::Helper(_, _, _, _) = member {
            return true;
        }
    }
    false
}

// The routine of the prework, where there is one.
fn prework_of(code: &Code) -> Option<&Routine>
    ensures { spec.IsPreworkOf code.now (option_map (λ routine. routine.now) result) }
{
    if code.has_prework() {
        Some(code.routine(Body::Prework))
    } else {
        None
    }
}

// Whether the bodies of a filter test what they pop, look at and push: where its text closes each
// peek, no firing comes to what is tested.
fn needs_tests(alloc: Global, code: &Code) -> Result<bool, NoMemory>
    ensures { IfOk result (λ tests. tests ≡ false → spec.HasClosedPeeks code.now) }
{
    match check(alloc, code) {
        Ok(rates) => Ok(!are_closed(&rates)),
        Err(RateError::NoMemory) => Err(NoMemory),
        Err(_) => Ok(true),
    }
}

// Whether each peek of each body is closed.
fn are_closed(rates: &Rates) -> bool
    ensures { result ≡ true → (which : Body)
        → AllAreClosed (rates_of (rates_view rates.now) which).closed }
{
    let prework = match &rates.prework {
        None => true,
        Some(prework) => all_closed(&prework.closed),
    };
    prework && all_closed(&rates.work.closed)
}

// Whether each of these is.
fn all_closed(closed: &[bool]) -> bool
    ensures { result ≡ true → AllAreClosed closed.now }
{
    for is_closed in closed {
        if !*is_closed {
            return false;
        }
    }
    true
}

// Adds the parts of a filter.
fn push_parts(
    text: &mut Vec<u8>,
    function: Function,
    tests: bool,
    alone: bool,
    values: &[i32],
    helpers: &[HelperCode],
    prework: Option<&Routine>,
    work: &Routine,
) -> Result<(), NoMemory>
    ensures { OnOk result (text.new.items ≡ text.old.items ++ spec.filter_text function tests alone
        values.now helpers.now (option_map (λ routine. routine.now) prework.entry) work.now) }
{
    push_fields(text, &function, values)?;
    push_helpers(text, &function, helpers)?;
    let function = push_prework(text, function, tests, alone, prework)?;
    let function = body_function(function, tests, work.limits);
    push_body(text, &function, b"work", alone, &work.code)
}

// Adds the function of a prework, where there is one. Gives the function that it wrote in, or the
// one that was.
fn push_prework(
    text: &mut Vec<u8>,
    function: Function,
    tests: bool,
    alone: bool,
    prework: Option<&Routine>,
) -> Result<Function, NoMemory>
    ensures text { OnOk result (text.new.items ≡ text.old.items ++ spec.prework_text function tests
        alone (option_map (λ routine. routine.now) prework.entry)) }
    ensures function { IfOk result (λ after. (limits : FiringLimits)
        → spec.body_function after tests limits ≡ spec.body_function function tests limits) }
{
    match prework {
        None => Ok(function),
        Some(routine) => {
            let function = body_function(function, tests, routine.limits);
            push_body(text, &function, b"prework", alone, &routine.code)?;
            Ok(function)
        }
    }
}

// The function that a filter's helper functions are written in.
fn helper_function(node: u32, fields: u32, arrays: Vec<Option<u32>>, helpers: Scope) -> Function
    ensures { result ≡ spec.helper_function node fields arrays helpers }
{
    Function {
        node,
        fields,
        arrays,
        in_helper: true,
        tests: true,
        pops: 0,
        peek: 0,
        pushes: 0,
        tape: node,
        helpers,
    }
}

// The function that a body of these limits is written in, with tests or without.
fn body_function(function: Function, tests: bool, limits: FiringLimits) -> Function
    ensures { result ≡ spec.body_function function tests limits }
{
    Function {
        node: function.node,
        fields: function.fields,
        arrays: function.arrays,
        in_helper: false,
        tests,
        pops: limits.pops,
        peek: limits.peek,
        pushes: limits.pushes,
        tape: function.tape,
        helpers: function.helpers,
    }
}

// The names of helper functions, the first one innermost.
fn names_of(alloc: Global, helpers: &[HelperCode]) -> Result<Scope, NoMemory>
    ensures { IfOk result (λ names. names ≡ spec.names_of helpers.now) }
{
    let mut names = Scope::new(alloc);
    let mut left = helpers.len();
    while left > 0 {
        left -= 1;
        names.declare(&helpers[left].name)?;
    }
    Ok(names)
}

/// Adds a comment: a filter's rates.
pub fn push_rates(text: &mut Vec<u8>, code: &Code) -> Result<(), NoMemory>
    ensures { OnOk result (text.new.items ≡ text.old.items ++ spec.rates_text code.now) }
{
    push_taken(text, code)?;
    push_given(text, code)
}

// What its work takes and looks at.
fn push_taken(text: &mut Vec<u8>, code: &Code) -> Result<(), NoMemory>
    ensures { OnOk result (text.new.items ≡ text.old.items ++ spec.taken_text code.now) }
{
    match code.tree().input {
        ItemType::Void => Ok(()),
        ItemType::Int => {
            let rates = code.rates(Body::Work);
            push_pieces(
                text,
                &[
                    Bytes(b" pop "),
                    Number(item_count(rates.pop)),
                    Bytes(b" peek "),
                    Number(u128::from(code.window(Body::Work))),
                ],
            )
        }
    }
}

// What its work gives.
fn push_given(text: &mut Vec<u8>, code: &Code) -> Result<(), NoMemory>
    ensures { OnOk result (text.new.items ≡ text.old.items ++ spec.given_text code.now) }
{
    match code.tree().output {
        ItemType::Void => Ok(()),
        ItemType::Int => {
            let rates = code.rates(Body::Work);
            push_pieces(text, &[Bytes(b" push "), Number(item_count(rates.push))])
        }
    }
}

// A rate as a number of items: none where it is below 0.
fn item_count(rate: i32) -> u128
    ensures { result ≡ filters.item_count rate }
{
    if rate < 0 { 0 } else { rate as u128 }
}
