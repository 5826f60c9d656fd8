// The rules on names and types of filters. A tree that keeps them is copied with its constants
// substituted.

ghost use Rattle.std.specs.Prelude.{◌≡◌, ℕ, List, IfOk, OnOk, Vec, [], ◌∷◌, length, map};
ghost use Rattle.std.specs.declared.alloc.Global.{Global as Memory};
ghost use Rattle.strc_parse_tree.specs.declared.tree.Member.{Member as MemberTree};
ghost use Rattle.strc_parse_tree.specs.Tree as tree;
ghost use Rattle.strc_parse_tree.specs.View.{variable_view, member_view, rate_view, block_view};
ghost use Rattle.strc_parse_tree.specs.View.{type_view};
ghost use Rattle.strc_work_meaning.specs.Filters.{filter_of, filter_parts, members_of};
ghost use Rattle.strc_work_meaning.specs.Typing as typing;
ghost use Rattle.strc_work_rules.specs.Resolution as judged;
ghost use Rattle.strc_work_rules.specs.RefusedPlaces.{Stands, filter_place, members_place};
ghost use Rattle.strc_work_rules.specs.RefusedPlaces.{member_place};
ghost use Rattle.strc_work_rules.specs.RefusedPlaces.{work_place, block_place};
ghost use Rattle.strc_work_rules.specs.Verdicts.{IsVerdict, context_of, work_view, VariableList};

use crate::context::{self, Context};
use crate::error::LowerError;
use crate::kept::push_next;
use crate::signatures::{self, Signature};
use crate::site::Mismatch;
use crate::{expression_rules, helpers, parts, rates, statement_rules, type_rules};
use std::alloc::Global;
use strc_lex_names::memory::NoMemory;
use strc_lex_names::name::Name;
use strc_lex_names::place::Span;
use strc_lex_names::scope::Scope;
use strc_lex_names::scope_map::ScopeMap;
use strc_parse_tree::tree::{FilterTree, ItemType, Member, RateTree, Stmt, Variable, Variables};
use strc_work_meaning::constants::Constants;
use strc_work_meaning::typed_scope::TypedScope;
use strc_work_meaning::types::{self, ValueType};

/// A body with its constants substituted.
#[derive(Drop)]
pub struct ResolvedWork {
    pub rates: Vec<RateTree>,
    pub block: Vec<Stmt>,
}

/// The filter of these types and members, with its constants substituted. Where it is refused,
/// `here` is the innermost statement, rate or declaration of fields around what breaks the rule.
pub fn resolve_filter(
    alloc: Global,
    input: ItemType,
    output: ItemType,
    members: &[Member],
    constants: &Constants,
    here: &mut Option<Span>,
) -> Result<FilterTree, LowerError>
    ensures verdict { IsVerdict filter_of
        (judged.filter_resolved constants.now (filter_parts input output members.now))
        result }
    ensures here { Stands result (filter_place constants.now input output here.old members.now)
        here.old here.new }
{
    if !parts::has_parts(members) {
        return Err(LowerError::mismatch(parts::broken_rule(members)));
    }
    let helpers = signatures::signatures_of(alloc, members)?;
    let mut fields = typed_fields(alloc, members)?;
    let members = resolve_members(
        alloc,
        input,
        output,
        constants,
        &helpers,
        &mut fields,
        here,
        members,
    )?;
    Ok(FilterTree {
        input,
        output,
        members,
    })
}

/// The members, in order of the text. They see all fields, and call all helper functions.
fn resolve_members(
    alloc: Global,
    input: ItemType,
    output: ItemType,
    constants: &Constants,
    helpers: &ScopeMap<Signature>,
    fields: &mut TypedScope,
    here: &mut Option<Span>,
    members: &[Member],
) -> Result<Vec<Member>, LowerError>
    ensures verdict { IsVerdict (λ (resolved : Vec MemberTree Memory). members_of resolved.items)
        (judged.members_resolved constants.now helpers.now input output fields.old [] []
        (members_of members.now))
        result }
    ensures here { Stands result (members_place constants.now helpers.now input output fields.old
        [] [] here.old members.now) here.old here.new }
{
    let mut before = Scope::new(alloc);
    let mut known = Scope::new(alloc);
    let mut resolved = Vec::new(alloc);
    for member in members {
        let next = resolve_member(
            alloc,
            input,
            output,
            constants,
            helpers,
            fields,
            &mut before,
            &mut known,
            here,
            member,
        );
        push_next(&mut resolved, next)?;
    }
    Ok(resolved)
}

/// The fields with their types.
fn typed_fields(alloc: Global, members: &[Member]) -> Result<TypedScope, NoMemory>
    ensures { IfOk result (λ names. names ≡ typing.names_after_fields [] (members_of members.now)) }
{
    let mut fields = TypedScope::new(alloc);
    for member in members {
        if let Member::Fields(declared) = member {
            declare_typed(
                &mut fields,
                types::type_of(&declared.kind),
                &declared.variables,
            )?;
        }
    }
    Ok(fields)
}

/// More variables of one type, the last one innermost.
fn declare_typed(
    names: &mut TypedScope,
    kind: ValueType,
    variables: &[Variable],
) -> Result<(), NoMemory>
    ensures { OnOk result (names.new ≡ typing.with_declared names.old kind
        (map variable_view variables.now)) }
{
    for variable in variables {
        names.declare(&variable.name, kind)?;
    }
    Ok(())
}

/// A member, with the fields and the helper functions before it.
fn resolve_member(
    alloc: Global,
    input: ItemType,
    output: ItemType,
    constants: &Constants,
    helpers: &ScopeMap<Signature>,
    fields: &mut TypedScope,
    before: &mut Scope,
    known: &mut Scope,
    here: &mut Option<Span>,
    member: &Member,
) -> Result<Member, LowerError>
    ensures verdict { IsVerdict member_view
        (judged.member_resolved constants.now helpers.now input output fields.old before.old
        known.old (member_view member.now))
        result }
    ensures fields { OnOk result (fields.new ≡ fields.old) }
    ensures before { OnOk result (before.new ≡ judged.fields_after before.old
        (member_view member.now)) }
    ensures known { OnOk result (known.new ≡ judged.known_after known.old
        (member_view member.now)) }
    ensures here { Stands result (member_place constants.now helpers.now input output fields.old
        known.old here.old member.now) here.old here.new }
{
    match member {
        Member::Fields(declared) => {
            let around = *here;
            *here = Some(declared.place);
            let member = resolve_declared_fields(
                alloc, constants, helpers, fields, before, declared,
            )?;
            *here = around;
            Ok(member)
        }
        Member::Init(block) => {
            let context = context::start_context(constants, helpers);
            let block = statement_rules::resolve_block(alloc, &context, fields, here, block)?;
            Ok(Member::Init(block))
        }
        Member::Prework(rates, block) => {
            let work = resolve_work(
                alloc, input, output, constants, helpers, fields, here, rates, block,
            )?;
            Ok(Member::Prework(work.rates, work.block))
        }
        Member::Work(rates, block) => {
            let work = resolve_work(
                alloc, input, output, constants, helpers, fields, here, rates, block,
            )?;
            Ok(Member::Work(work.rates, work.block))
        }
        Member::Helper(kind, name, parameters, block) => helpers::resolve_helper(
            alloc, constants, helpers, fields, known, here, *kind, name, parameters, block,
        ),
    }
}

/// A declaration of fields.
fn resolve_declared_fields(
    alloc: Global,
    constants: &Constants,
    helpers: &ScopeMap<Signature>,
    fields: &TypedScope,
    before: &mut Scope,
    declared: &Variables,
) -> Result<Member, LowerError>
    ensures verdict { (input output : ItemType) (known : List (List ℕ)) → IsVerdict member_view
        (judged.member_resolved constants.now helpers.now input output fields.now before.old known
        (tree.Fields (type_view declared.now.kind)
        (map variable_view declared.now.variables.items)))
        result }
    ensures before { OnOk result (before.new ≡ typing.names_with before.old
        (map variable_view declared.now.variables.items)) }
{
    let context = context::start_context(constants, helpers);
    let resolved = type_rules::resolve_type(alloc, constants, fields, &declared.kind)?;
    let variables = resolve_fields(
        alloc,
        &context,
        fields,
        before,
        resolved.kind,
        &declared.variables,
    )?;
    Ok(Member::Fields(Variables {
        kind: resolved.written,
        variables,
        place: declared.place,
    }))
}

/// Fields that are declared together. They see all fields.
fn resolve_fields(
    alloc: Global,
    context: &Context,
    fields: &TypedScope,
    before: &mut Scope,
    kind: ValueType,
    variables: &[Variable],
) -> Result<Vec<Variable>, LowerError>
    ensures verdict { IsVerdict (λ (resolved : VariableList). map variable_view resolved.items)
        (judged.fields_resolved (context_of context.now) fields.now before.old kind
        (map variable_view variables.now))
        result }
    ensures before { OnOk result
        (before.new ≡ typing.names_with before.old (map variable_view variables.now)) }
{
    let mut resolved = Vec::new(alloc);
    for variable in variables {
        let next = resolve_field(alloc, context, fields, before, kind, variable);
        push_next(&mut resolved, next)?;
    }
    Ok(resolved)
}

/// Whether the name of a field is taken. No name of a text is empty: that is the name of a helper
/// function's answer.
fn is_field_taken(before: &Scope, name: &Name) -> bool
    ensures { result ≡ judged.is_field_taken before.now name.now }
{
    name.as_bytes().is_empty() || before.has(name)
}

/// A field, whose name is new.
fn resolve_field(
    alloc: Global,
    context: &Context,
    fields: &TypedScope,
    before: &mut Scope,
    kind: ValueType,
    variable: &Variable,
) -> Result<Variable, LowerError>
    ensures verdict { IsVerdict variable_view
        (judged.field_resolved (context_of context.now) fields.now before.old kind
        (variable_view variable.now))
        result }
    ensures before { OnOk result (before.new ≡ variable.now.name ∷ before.old) }
{
    if is_field_taken(before, &variable.name) {
        let twice = LowerError::mismatch(Mismatch::DeclaredTwice);
        return Err(twice.or_at(variable.name.place()));
    }
    let initial = expression_rules::resolve_initial(
        alloc,
        context,
        fields,
        kind,
        &variable.initial,
    )?;
    before.declare(&variable.name)?;
    let name = variable.name.copy()?;
    Ok(Variable { name, initial })
}

/// A body, with its rates.
fn resolve_work(
    alloc: Global,
    input: ItemType,
    output: ItemType,
    constants: &Constants,
    helpers: &ScopeMap<Signature>,
    fields: &mut TypedScope,
    here: &mut Option<Span>,
    rates: &[RateTree],
    block: &[Stmt],
) -> Result<ResolvedWork, LowerError>
    ensures verdict { IsVerdict work_view
        (judged.work_resolved constants.now helpers.now input output fields.old
        (record { rates = map rate_view rates.now; block = block_view block.now }))
        result }
    ensures fields { OnOk result (fields.new ≡ fields.old) }
    ensures here { Stands result (work_place constants.now fields.old input output here.old
        rates.now (block_place (judged.body_context constants.now helpers.now input output)
        fields.old (length fields.old) here.old block.now)) here.old here.new }
{
    let rates = rates::resolve_rates(alloc, constants, fields, input, output, here, rates)?;
    let context = context::body_context(constants, helpers, input, output);
    let block = statement_rules::resolve_block(alloc, &context, fields, here, block)?;
    Ok(ResolvedWork { rates, block })
}
