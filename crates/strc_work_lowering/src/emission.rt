// From a resolved filter to its code.

ghost use Rattle.std.specs.Prelude.{◌≡◌, false, [], ◌∷◌, IfOk, OnOk, map, reverse};
ghost use Rattle.std.specs.Option.{option_map};
ghost use Rattle.strc_parse_tree.specs.View.{expr_view, variable_view, member_view};
ghost use Rattle.strc_work_meaning.specs.Filters.{members_of, filter_of, sized_fields, body_block};
ghost use Rattle.strc_work_meaning.specs.Filters.{body_rates};
ghost use Rattle.strc_work_meaning.specs.Scoping.{with_declared};
ghost use Rattle.strc_work_code.specs.Nodes.{before};
ghost use Rattle.strc_work_code.specs.Code.{code_of};
ghost use Rattle.strc_work_code.specs.Flat.{IsFlat};
ghost use Rattle.strc_work_code.specs.Links.{helper_names, IsLinked};
ghost use Rattle.strc_work_code.specs.Lowering as spec;
ghost use Rattle.strc_work_code.specs.Lowered as lowered;
ghost use Rattle.strc_work_meaning.specs.Closed.{IsClosedFilter};
ghost use Rattle.strc_work_lowering.specs.Parts.{AreParts, AreBodies, IsPrework};
ghost use Rattle.strc_work_lowering.specs.Written.{written};

use crate::builder::Builder;
use crate::expression_code::emit_expr;
use crate::helper_code::emit_helpers;
use crate::layout::Layout;
use crate::operands::cells_of;
use crate::routine::routine_of;
use crate::statement_code::emit_block;
use std::alloc::Global;
use strc_lex_names::memory::NoMemory;
use strc_parse_tree::tree::{FilterTree, Member, Variable};
use strc_work_code::bodies;
use strc_work_code::code::{Code, Routine};
use strc_work_code::helper::HelperCode;
use strc_work_code::limits::FiringLimits;
use strc_work_linearization::links::Links;
use strc_work_meaning::body::Body;

/// What a filter's code is made of beside its tree.
struct Parts {
    fields: usize,
    start: Routine,
    prework: Option<Routine>,
    work: Routine,
    helpers: Vec<HelperCode>,
}

/// The code of a filter that keeps the rules.
pub fn emit_filter(alloc: Global, tree: FilterTree) -> Result<Code, NoMemory>
    requires { IsClosedFilter (filter_of tree) }
    ensures { IfOk result (λ code. code ≡ tree) }
{
    let Parts {
        fields,
        start,
        prework,
        work,
        helpers,
    } = emit_parts(alloc, &tree.members)?;
    Code::of_parts(alloc, tree, fields, start, prework, work, helpers)
}

/// The parts of a filter's code.
fn emit_parts(alloc: Global, members: &[Member]) -> Result<Parts, NoMemory>
    ensures { IfOk result (λ parts. AreParts (members_of members.now) parts.fields parts.start
        parts.prework parts.work parts.helpers.items) }
{
    let mut names = field_layout(alloc, members)?;
    let fields = names.total() as usize;
    let links = Links::of_members(alloc, members)?;
    let helpers = emit_helpers(alloc, &mut names, &links, members)?;
    let start = emit_start(alloc, &mut names, &links, members)?;
    let (prework, work) = emit_bodies(alloc, &mut names, &links, members)?;
    Ok(Parts {
        fields,
        start,
        prework,
        work,
        helpers,
    })
}

/// The code of `prework`, where there is one, and of `work`.
fn emit_bodies(
    alloc: Global,
    names: &mut Layout,
    links: &Links,
    members: &[Member],
) -> Result<(Option<Routine>, Routine), NoMemory>
    requires links { links.now ≡ helper_names (members_of members.now) }
    ensures { IfOk result (λ bodies. AreBodies names.old (members_of members.now) bodies.0
        bodies.1) }
{
    let work = emit_routine(alloc, names, links, Body::Work, members)?;
    let prework = emit_prework(alloc, names, links, members)?;
    Ok((prework, work))
}

/// The code of `prework`, where there is one.
fn emit_prework(
    alloc: Global,
    names: &mut Layout,
    links: &Links,
    members: &[Member],
) -> Result<Option<Routine>, NoMemory>
    requires links { links.now ≡ helper_names (members_of members.now) }
    ensures { IfOk result (λ prework. IsPrework names.old (members_of members.now) prework) }
{
    if bodies::has_prework(members) {
        let prework = emit_routine(alloc, names, links, Body::Prework, members)?;
        return Ok(Some(prework));
    }
    Ok(None)
}

/// The fields with their cells.
fn field_layout(alloc: Global, members: &[Member]) -> Result<Layout, NoMemory>
    ensures { IfOk result (λ names. names ≡ reverse (sized_fields (members_of members.now))) }
{
    let mut fields = Layout::new(alloc);
    for member in members {
        if let Member::Fields(declared) = member {
            declare_all(&mut fields, cells_of(&declared.kind), &declared.variables)?;
        }
    }
    Ok(fields)
}

/// More variables of so many cells, the last one innermost.
fn declare_all(names: &mut Layout, cells: u32, variables: &[Variable]) -> Result<(), NoMemory>
    ensures { OnOk result (names.new ≡ with_declared names.old cells
        (map variable_view variables.now)) }
{
    for variable in variables {
        names.declare(&variable.name, cells)?;
    }
    Ok(())
}

/// The code of a filter's start: its fields' initialisers, and then `init`.
#[tactic(auto, using(strc_work_code::proofs::Nodes::before_assoc))]
fn emit_start(
    alloc: Global,
    names: &mut Layout,
    links: &Links,
    members: &[Member],
) -> Result<Routine, NoMemory>
    ensures code { IfOk result (λ start. code_of start.code
        ≡ before (spec.initials_nodes names.old (members_of members.now))
        (spec.inits_nodes names.old (members_of members.now))) }
    ensures flat { IfOk result (λ start. IsFlat start.flat (code_of start.code)) }
    ensures linked { IfOk result (λ start. IsLinked links.now start.flat) }
    ensures names { OnOk result (names.new ≡ names.old) }
{
    let mut code = Builder::new(alloc);
    emit_initials(&mut code, names, members)?;
    emit_inits(&mut code, names, members)?;
    let nothing = FiringLimits {
        pops: 0,
        peek: 0,
        pushes: 0,
    };
    routine_of(alloc, links, code.finish()?, nothing)
}

/// The code of the fields' initialisers, in order.
fn emit_initials(code: &mut Builder, names: &Layout, members: &[Member]) -> Result<(), NoMemory>
    ensures { OnOk result (written code.new
        ≡ before (written code.old) (spec.initials_nodes names.now (members_of members.now))) }
{
    for member in members {
        emit_initial(code, names, member)?;
    }
    Ok(())
}

/// The code of a member's initialisers.
#[tactic(auto, using(strc_work_code::proofs::Nodes::before_end))]
fn emit_initial(code: &mut Builder, names: &Layout, member: &Member) -> Result<(), NoMemory>
    ensures { OnOk result (written code.new
        ≡ before (written code.old) (spec.initials_nodes names.now (member_view member.now ∷ []))) }
{
    match member {
        Member::Fields(declared) => emit_fields(code, names, &declared.variables),
        Member::Init(_) | Member::Prework(_, _) | Member::Work(_, _) | Member::Helper(_, _, _, _) =>
            Ok(()),
    }
}

/// The code of fields that are declared together.
fn emit_fields(code: &mut Builder, names: &Layout, variables: &[Variable]) -> Result<(), NoMemory>
    ensures { OnOk result (written code.new
        ≡ before (written code.old) (spec.fields_nodes names.now
        (map variable_view variables.now))) }
{
    for variable in variables {
        emit_field(code, names, variable)?;
    }
    Ok(())
}

/// The code of a field's initialiser, where it has one.
#[tactic(auto, using(strc_work_code::proofs::Nodes::before_end))]
fn emit_field(code: &mut Builder, names: &Layout, variable: &Variable) -> Result<(), NoMemory>
    ensures { OnOk result (written code.new ≡ before (written code.old)
        (spec.field_nodes names.now variable.now.name
        (option_map expr_view variable.now.initial))) }
{
    match &variable.initial {
        None => Ok(()),
        Some(value) => {
            let into = names.slot_of(&variable.name);
            emit_expr(code, names, value, into, names.total())
        }
    }
}

/// The code of `init`.
fn emit_inits(code: &mut Builder, names: &mut Layout, members: &[Member]) -> Result<(), NoMemory>
    ensures code { OnOk result (written code.new
        ≡ before (written code.old) (spec.inits_nodes names.old (members_of members.now))) }
    ensures names { OnOk result (names.new ≡ names.old) }
{
    for member in members {
        emit_init(code, names, member)?;
    }
    Ok(())
}

/// The code of a member that is an `init`.
#[tactic(auto, using(strc_work_code::proofs::Nodes::before_end))]
fn emit_init(code: &mut Builder, names: &mut Layout, member: &Member) -> Result<(), NoMemory>
    ensures code { OnOk result (written code.new
        ≡ before (written code.old) (spec.inits_nodes names.old (member_view member.now ∷ []))) }
    ensures names { OnOk result (names.new ≡ names.old) }
{
    match member {
        Member::Init(block) => emit_block(code, names, block),
        Member::Fields(_)
        | Member::Prework(_, _)
        | Member::Work(_, _)
        | Member::Helper(_, _, _, _) => Ok(()),
    }
}

/// The code of a body, and its limits.
fn emit_routine(
    alloc: Global,
    names: &mut Layout,
    links: &Links,
    body: Body,
    members: &[Member],
) -> Result<Routine, NoMemory>
    ensures code { IfOk result (λ routine. code_of routine.code
        ≡ spec.stmts_nodes names.old false (body_block body (members_of members.now))) }
    ensures flat { IfOk result (λ routine. IsFlat routine.flat (code_of routine.code)) }
    ensures linked { IfOk result (λ routine. IsLinked links.now routine.flat) }
    ensures limits { IfOk result (λ routine. routine.limits
        ≡ lowered.limits_of (body_rates body (members_of members.now))) }
    ensures names { OnOk result (names.new ≡ names.old) }
{
    let mut code = Builder::new(alloc);
    emit_block(&mut code, names, bodies::block_of(members, body))?;
    let limits = bodies::limits_of(bodies::rates_of(members, body));
    routine_of(alloc, links, code.finish()?, limits)
}
