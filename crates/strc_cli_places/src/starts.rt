// Where a filter faults before it runs: in the initialiser of a field, in `init`, or in a helper
// function that is called there.

ghost use Rattle.std.specs.Prelude.{◌≡◌, IfOk};
ghost use Rattle.std.specs.Option.{option_map};
ghost use Rattle.strc_cli_places.specs.Refused as refused;
ghost use Rattle.strc_cli_places.specs.Streams as streams;

use crate::composites::child_added;
use crate::known::Known;
use strc_cli_source::operators::faulting_part;
use strc_cli_statements::occurrences::{nested_calls, occurrences_at_start, single, sought_for};
use strc_lex_names::memory::NoMemory;
use strc_lex_names::place::Span;
use strc_parse_tree::tree::{Child, Member, StreamTree};
use strc_work_meaning::fault::Cause;

/// The field or the statement at which a filter faults when it starts, where no other one of it can
/// for this cause; the filter is the one declared by the name at a place, or added there without
/// one.
pub fn faulting_start(
    known: Known<'_>,
    filter: Span,
    cause: Cause,
) -> Result<Option<Span>, NoMemory>
    ensures { IfOk result (λ place. place ≡ refused.start_part known.entry.source.tokens.now cause
        (streams.members_at known.entry.source.text.now
        (option_map (λ p. p.now) known.entry.program) filter)) }
{
    let Some(members) = members_at(known, filter) else {
        return Ok(None);
    };
    let found = match cause {
        Cause::Calls => nested_calls(known.alloc, members)?,
        Cause::DivZero | Cause::Index | Cause::PeekRange | Cause::Turns => {
            occurrences_at_start(known.alloc, members, sought_for(cause))?
        }
    };
    match single(&found) {
        Some(statement) => Ok(Some(faulting_part(known.source, statement, cause))),
        None => Ok(None),
    }
}

/// The members of the filter that is declared by the name at a place, or added there without one.
fn members_at<'a>(known: Known<'a>, place: Span) -> Option<&'a [Member]>
    ensures { option_map (λ m. m.now) result ≡ streams.members_at known.entry.source.text.now
        (option_map (λ p. p.now) known.entry.program) place }
{
    match known.declaration_named(known.source.bytes(place)) {
        Some(declaration) => members_of_stream(&declaration.stream),
        None => members_of_child(child_added(known.declarations(), place.start)?),
    }
}

fn members_of_stream(stream: &StreamTree) -> Option<&[Member]>
    ensures { option_map (λ m. m.now) result ≡ streams.stream_members stream.now }
{
    match stream {
        StreamTree::Filter(filter) => Some(&filter.members),
        StreamTree::Composite(_) => None,
    }
}

fn members_of_child(child: &Child) -> Option<&[Member]>
    ensures { option_map (λ m. m.now) result ≡ streams.child_members child.now }
{
    match child {
        Child::Filter(_, members) => Some(members),
        Child::Named(_, _)
        | Child::Identity(_)
        | Child::FileReader(_)
        | Child::FileWriter(_)
        | Child::Composite(_, _, _) => None,
    }
}
