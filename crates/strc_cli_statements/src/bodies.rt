// Places in the bodies of a filter.

ghost use Rattle.std.specs.Prelude.{◌≡◌, ◌++◌, IfOk, OnOk};
ghost use Rattle.strc_cli_statements.specs.Statements as spec;

use crate::count_places::{are_counted, uncounted};
use crate::occurrences::{
    Sought, nested_calls, occurrences, occurrences_in_firing, single, sought_for,
};
use std::alloc::Global;
use strc_lex_names::memory::NoMemory;
use strc_lex_names::place::Span;
use strc_rate::peeks::body_peeks;
use strc_rate::sight::PeekBounds;
use strc_work_code::code::Code;
use strc_work_meaning::body::Body;
use strc_work_meaning::fault::Cause;

/// The first statement with a peek that can't be within its window.
pub fn peek_outside(alloc: Global, code: &Code) -> Result<Option<Span>, NoMemory>
    ensures { IfOk result (λ place. place ≡ spec.outside_place code.now) }
{
    let mut outside = Vec::new(alloc);
    add_peeks(code, Body::Prework, PeekBounds::Outside, &mut outside)?;
    add_peeks(code, Body::Work, PeekBounds::Outside, &mut outside)?;
    Ok(first_of(&outside))
}

fn first_of(places: &[Option<Span>]) -> Option<Span>
    ensures { result ≡ spec.first_place places.now }
{
    match places.first() {
        Some(place) => *place,
        None => None,
    }
}

/// The statements of the peeks of a body of which this is known.
fn add_peeks(
    code: &Code,
    body: Body,
    known: PeekBounds,
    found: &mut Vec<Option<Span>>,
) -> Result<(), NoMemory>
    ensures { OnOk result (found.new.items ≡ found.old.items
        ++ spec.peek_places known body code.now) }
{
    let alloc = *found.allocator();
    let block = code.block(body);
    let peeks = occurrences(alloc, block, Sought::Peek)?;
    let sights = body_peeks(alloc, block, code.window(body))?.sights;
    add_where(known, &sights, &peeks, found)
}

/// The places of those of which this is known.
fn add_where(
    known: PeekBounds,
    sights: &[PeekBounds],
    places: &[Option<Span>],
    found: &mut Vec<Option<Span>>,
) -> Result<(), NoMemory>
    ensures { OnOk result (found.new.items ≡ found.old.items
        ++ spec.places_where known sights.now places.now) }
{
    for (number, sight) in sights.iter().enumerate() {
        let Some(place) = places.get(number) else {
            return Ok(());
        };
        if *sight == known {
            found.push(*place)?;
        }
    }
    Ok(())
}

/// The first statement that moves a number of items that can't be counted.
pub fn uncounted_statement(alloc: Global, code: &Code) -> Result<Option<Span>, NoMemory>
    ensures { IfOk result (λ place. place ≡ spec.uncounted_place code.now) }
{
    let first = code.block(Body::Prework);
    if are_counted(alloc, first)? {
        uncounted(alloc, code.block(Body::Work), None)
    } else {
        uncounted(alloc, first, None)
    }
}

/// The statement that faults in a firing, where no other one of its body or of a helper function
/// can for this cause.
pub fn faulting_statement(
    alloc: Global,
    code: &Code,
    body: Body,
    cause: Cause,
) -> Result<Option<Span>, NoMemory>
    ensures { IfOk result (λ place. place ≡ spec.fault_place cause body code.now) }
{
    let members = &code.tree().members;
    match cause {
        Cause::PeekRange => {
            let mut open = Vec::new(alloc);
            add_peeks(code, body, PeekBounds::Open, &mut open)?;
            Ok(single(&open))
        }
        Cause::Calls => Ok(single(&nested_calls(alloc, members)?)),
        Cause::DivZero | Cause::Index | Cause::Turns => {
            let found = occurrences_in_firing(alloc, members, code.block(body), sought_for(cause))?;
            Ok(single(&found))
        }
    }
}
