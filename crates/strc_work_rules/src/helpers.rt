// The rules on helper functions.

ghost use Rattle.std.specs.Prelude.{◌≡◌, ℕ, List, OnOk, ◌∷◌, IfOk, length};
ghost use Rattle.strc_parse_tree.specs.View.{member_view, block_view};
ghost use Rattle.strc_work_meaning.specs.declared.types.ValueType.TheVariants.{Int};
ghost use Rattle.strc_work_rules.specs.Signatures.{with_parameters};
ghost use Rattle.strc_work_rules.specs.Resolution as judged;
ghost use Rattle.strc_work_rules.specs.RefusedPlaces.{Stands, helper_place, block_place};
ghost use Rattle.strc_work_rules.specs.Verdicts.{IsVerdict, NameList};

use crate::error::LowerError;
use crate::kept::push_next;
use crate::signatures::Signature;
use crate::site::Mismatch;
use crate::{context, statement_rules};
use std::alloc::Global;
use strc_lex_names::name::Name;
use strc_lex_names::place::Span;
use strc_lex_names::scope::Scope;
use strc_lex_names::scope_map::ScopeMap;
use strc_parse_tree::tree::{HelperType, Member, Stmt};
use strc_work_meaning::constants::Constants;
use strc_work_meaning::typed_scope::TypedScope;
use strc_work_meaning::types::ValueType;

/// A helper function, whose name no earlier one has. Its parameters are inside the fields.
pub(crate) fn resolve_helper(
    alloc: Global,
    constants: &Constants,
    helpers: &ScopeMap<Signature>,
    fields: &mut TypedScope,
    known: &mut Scope,
    here: &mut Option<Span>,
    kind: HelperType,
    name: &Name,
    parameters: &[Name],
    block: &[Stmt],
) -> Result<Member, LowerError>
    ensures verdict { IsVerdict member_view
        (judged.helper_resolved constants.now helpers.now fields.old known.old kind name.now
        parameters.now (block_view block.now))
        result }
    ensures fields { OnOk result (fields.new ≡ fields.old) }
    ensures known { OnOk result (known.new ≡ name.now ∷ known.old) }
    ensures here { Stands result (helper_place fields.old known.old here.old name.now
        parameters.now (block_place (judged.helper_context constants.now helpers.now kind)
        (with_parameters fields.old parameters.now)
        (length (with_parameters fields.old parameters.now)) here.old block.now))
        here.old here.new }
{
    if known.has(name) {
        let twice = LowerError::mismatch(Mismatch::DeclaredTwice);
        return Err(twice.or_at(name.place()));
    }
    let context = context::helper_context(constants, helpers, kind);
    let start = fields.len();
    let parameters = resolve_parameters(alloc, fields, start, parameters)?;
    let block = statement_rules::resolve_block(alloc, &context, fields, here, block)?;
    fields.leave(start);
    known.declare(name)?;
    let name = name.copy()?;
    Ok(Member::Helper(kind, name, parameters, block))
}

/// The parameters of a helper function, which are numbers.
fn resolve_parameters(
    alloc: Global,
    names: &mut TypedScope,
    start: usize,
    parameters: &[Name],
) -> Result<Vec<Name>, LowerError>
    ensures verdict { IsVerdict (λ (resolved : NameList). resolved.items)
        (judged.parameters_resolved names.old start parameters.now) result }
    ensures names { OnOk result (names.new ≡ with_parameters names.old parameters.now) }
{
    let mut resolved = Vec::new(alloc);
    for parameter in parameters {
        let next = resolve_parameter(names, start, parameter);
        push_next(&mut resolved, next)?;
    }
    Ok(resolved)
}

/// A parameter, whose name no earlier one has.
fn resolve_parameter(names: &mut TypedScope, start: usize, name: &Name) -> Result<Name, LowerError>
    ensures verdict { IsVerdict (λ (name : List ℕ). name)
        (judged.parameter_resolved names.old start name.now) result }
    ensures names { OnOk result (names.new ≡ record { 0 = name.now; 1 = Int } ∷ names.old) }
{
    if statement_rules::is_taken(names, start, name) {
        let twice = LowerError::mismatch(Mismatch::DeclaredTwice);
        return Err(twice.or_at(name.place()));
    }
    names.declare(name, ValueType::Int)?;
    let name = name.copy()?;
    Ok(name)
}
