// Whether a work can write a field by the helper functions that it calls: a search from the work
// from call to call, which looks at each of them once.

ghost use Rattle.std.specs.Prelude.{◌≡◌, false, IfOk, OnOk};
ghost use Rattle.std.specs.Bool.{Decides};
ghost use Rattle.strc_parse_tree.specs.View.{block_view, member_view};
ghost use Rattle.strc_work_meaning.specs.Filters.{members_of};
ghost use Rattle.strc_work_writes.specs.Stateless.{block_calls_writer, ReachesWriter};
ghost use Rattle.strc_work_writes.specs.Writers as spec;

use crate::calls::find_in_block;
use crate::field_writes::{block_writes_field, declare_fields};
use std::alloc::Global;
use strc_lex_names::memory::NoMemory;
use strc_lex_names::name::Name;
use strc_lex_names::scope::Scope;
use strc_lex_names::scope_map::ScopeMap;
use strc_parse_tree::tree::{Member, Stmt};

/// Whether a work calls a helper function of its filter that can write a field, itself or by the
/// calls that it makes, however many there are one within the other. It takes time near linear in
/// the length of the text. `NoMemory` where there is none for the names.
pub fn calls_writer(alloc: Global, members: &[Member], work: &[Stmt]) -> Result<bool, NoMemory>
    ensures writes { IfOk result (λ writes. writes
        ≡ block_calls_writer (members_of members.now) (block_view work.now)) }
    ensures reaches { IfOk result (λ writes. Decides writes
        (ReachesWriter (members_of members.now) (block_view work.now))) }
{
    let mut fields = Scope::new(alloc);
    declare_fields(&mut fields, members)?;
    let helpers = places_of(alloc, members)?;
    let mut found = ScopeMap::new(alloc);
    find_in_block(&helpers, &mut found, work)?;
    let mut next = 0;
    while next < found.len() {
        let place = found.at(next).1;
        if writes_or_finds(alloc, &fields, &helpers, &mut found, &members[place])? {
            return Ok(true);
        }
        next += 1;
    }
    Ok(false)
}

/// The helper functions by name, each with its place among the members. Of several of one name the
/// first is called.
fn places_of(alloc: Global, members: &[Member]) -> Result<ScopeMap<usize>, NoMemory>
    ensures { IfOk result (λ places. places ≡ spec.helper_places 0 (members_of members.now)) }
{
    let mut places = ScopeMap::new(alloc);
    let mut place = members.len();
    while place > 0 {
        place -= 1;
        if let Member::Helper(_, name, _, _) = &members[place] {
            places.declare(name, place)?;
        }
    }
    Ok(places)
}

/// Whether a helper function itself writes a field. Where it doesn't, those that it calls are
/// added to those that are found.
fn writes_or_finds(
    alloc: Global,
    fields: &Scope,
    helpers: &ScopeMap<usize>,
    found: &mut ScopeMap<usize>,
    member: &Member,
) -> Result<bool, NoMemory>
    ensures writes { IfOk result (λ writes. writes
        ≡ spec.writes_one fields.now (spec.member_helper (member_view member.now))) }
    ensures finds { IfOk result (λ writes. writes ≡ false
        → found.new ≡ spec.with_calls helpers.now found.old
        (spec.called_by (spec.member_helper (member_view member.now)))) }
{
    match member {
        Member::Helper(_, _, parameters, block) => {
            if helper_writes(alloc, fields, parameters, block)? {
                return Ok(true);
            }
            find_in_block(helpers, found, block)?;
            Ok(false)
        }
        Member::Fields(_) | Member::Init(_) | Member::Prework(_, _) | Member::Work(_, _) => {
            Ok(false)
        }
    }
}

/// Whether a helper function writes a field.
fn helper_writes(
    alloc: Global,
    fields: &Scope,
    parameters: &[Name],
    block: &[Stmt],
) -> Result<bool, NoMemory>
    ensures { IfOk result (λ writes. writes
        ≡ spec.helper_block_writes fields.now parameters.now (block_view block.now)) }
{
    // A parameter shadows a field of its name.
    let mut locals = Scope::new(alloc);
    declare_parameters(&mut locals, parameters)?;
    block_writes_field(fields, &mut locals, block)
}

/// Adds the names of parameters, the last one innermost.
fn declare_parameters(names: &mut Scope, parameters: &[Name]) -> Result<(), NoMemory>
    ensures { OnOk result (names.new ≡ spec.with_parameters names.old parameters.now) }
{
    for parameter in parameters {
        names.declare(parameter)?;
    }
    Ok(())
}
