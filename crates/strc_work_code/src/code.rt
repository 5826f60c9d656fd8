// Lowered code: a filter's tree with its constants substituted, and the nodes that mean it.

ghost use Rattle.std.specs.Prelude.{◌≡◌, IfOk, is_some};
ghost use Rattle.strc_parse_tree.specs.View.{block_view};
ghost use Rattle.strc_work_meaning.specs.Filters as filters;
ghost use Rattle.strc_work_meaning.specs.Scoping.{total};
ghost use Rattle.strc_work_code.specs.Code.{code_of};
ghost use Rattle.strc_work_code.specs.Flat.{IsFlat};
ghost use Rattle.strc_work_code.specs.Links.{helper_names, IsLinked, AreLinkedCodes};
ghost use Rattle.strc_work_code.specs.Lowered.{limits_of, first_routine};
ghost use Rattle.strc_work_meaning.specs.declared.body.Body.TheVariants as bodied;
ghost use Rattle.strc_work_writes.specs.Stateless as writes;

use crate::bodies;
use crate::helper::{HelperCode, room_for_calls, room_to_save};
use crate::limits::FiringLimits;
use crate::node::Node;
use crate::stateless::is_stateless;
use std::alloc::Global;
use std::marker::Model;
use std::sync::Arc;
use strc_lex_names::memory::NoMemory;
use strc_parse_tree::tree::{FilterTree, RateKind, Stmt};
use strc_work_meaning::body::Body;

/// The code of a filter. Its copies share what lowering made of the filter.
pub struct Code {
    lowered: Arc<Lowered>,
}

impl Drop for Code {
    fn drop(self) {
        let Code { lowered: _ } = self;
    }
}

impl Model for Code {
    ghost use Rattle.strc_parse_tree.specs.declared.tree.FilterTree.{FilterTree};

    ghost Value = { FilterTree };

    ghost use Rattle.strc_parse_tree.specs.contracts.tree.FilterTree as filter_tree;

    ghost coded = { filter_tree.the_row.coded };

    ghost use Rattle.std.specs.Arc.{arc_value};

    ghost view = { λ c. arc_value c.lowered };
}

/// What lowering made of a filter: its tree, the routines of its start and its bodies, the code of
/// its helper functions, how many slots its fields take, all that it runs needs, a call needs and
/// its callers' locals need, and whether it has no state.
#[derive(Drop)]
struct Lowered {
    tree: FilterTree,
    start: Routine,
    prework: Option<Routine>,
    work: Routine,
    helpers: Vec<HelperCode>,
    fields: usize,
    slots: usize,
    calls: usize,
    saved: usize,
    stateless: bool,
}

impl Model for Lowered {
    ghost use Rattle.strc_parse_tree.specs.declared.tree.FilterTree.{FilterTree};

    ghost Value = { FilterTree };

    ghost use Rattle.strc_parse_tree.specs.contracts.tree.FilterTree as filter_tree;

    ghost coded = { filter_tree.the_row.coded };

    ghost use Rattle.strc_work_code.specs.Lowered.{IsLowered};

    ghost view = { λ c. c.tree };

    ghost invariant = { λ c. IsLowered c.tree c.start c.prework c.work c.helpers.items c.fields
        c.slots c.calls c.saved c.stateless };
}

/// A body's code, its flat form, which is what is run, and what it may pop, look at and push.
#[derive(Drop)]
pub struct Routine {
    pub code: Node,
    pub flat: Node,
    pub limits: FiringLimits,
}

/// The greatest rate that may be declared.
pub const RATE_LIMIT: i32 = 65536;

/// Rates as they are declared; a missing one is 0, and a missing peek rate is the pop rate.
#[derive(Clone, Copy)]
pub struct DeclaredRates {
    pub push: i32,
    pub pop: i32,
    pub peek: i32,
}

impl Code {
    ghost use Rattle.strc_work_code.specs.Lowering.{start_nodes, body_nodes};
    ghost use Rattle.strc_work_code.specs.Lowering as lowering;
    ghost use Rattle.strc_work_code.specs.Bodies.{body_statements};
    ghost use Rattle.strc_work_meaning.specs.Closed.{IsClosedFilter};
    ghost use Rattle.strc_work_code.specs.Helpers.{AreHelpers, saved_count};

    /// The code of a resolved tree and its parts.
    pub fn of_parts(
        alloc: Global,
        tree: FilterTree,
        fields: usize,
        start: Routine,
        prework: Option<Routine>,
        work: Routine,
        helpers: Vec<HelperCode>,
    ) -> Result<Code, NoMemory>
        requires fields { fields ≡ total (filters.sized_fields (filters.filter_of tree).members) }
        requires start { code_of start.code ≡ start_nodes (filters.filter_of tree) }
        requires prework { code_of (first_routine prework work).code
            ≡ body_nodes bodied.Prework (filters.filter_of tree) }
        requires work { code_of work.code ≡ body_nodes bodied.Work (filters.filter_of tree) }
        requires start_flat { IsFlat start.flat (code_of start.code) }
        requires prework_flat { IsFlat (first_routine prework work).flat
            (code_of (first_routine prework work).code) }
        requires work_flat { IsFlat work.flat (code_of work.code) }
        requires prework_limits { (first_routine prework work).limits
            ≡ limits_of (filters.body_rates bodied.Prework (filters.filter_of tree).members) }
        requires work_limits { work.limits
            ≡ limits_of (filters.body_rates bodied.Work (filters.filter_of tree).members) }
        requires helpers { AreHelpers (lowering.field_scope (filters.filter_of tree))
            (filters.filter_of tree).members helpers.items }
        requires start_linked { IsLinked (helper_names (filters.filter_of tree).members)
            start.flat }
        requires prework_linked { IsLinked (helper_names (filters.filter_of tree).members)
            (first_routine prework work).flat }
        requires work_linked { IsLinked (helper_names (filters.filter_of tree).members) work.flat }
        requires helpers_linked { AreLinkedCodes (helper_names (filters.filter_of tree).members)
            helpers.items }
        requires closed { IsClosedFilter (filters.filter_of tree) }
        ensures { IfOk result (λ code. code ≡ tree) }
    {
        let stateless = is_stateless(alloc, &tree)?;
        let first = first_of(&prework, &work).code.slot_count();
        let calls = room_for_calls(&tree, &helpers);
        let later = work.code.slot_count().max(calls);
        let slots = fields.max(start.code.slot_count().max(first.max(later)));
        let saved = room_to_save(fields, slots, calls)?;
        let lowered = Lowered {
            tree,
            start,
            prework,
            work,
            helpers,
            fields,
            slots,
            calls,
            saved,
            stateless,
        };
        Ok(Code {
            lowered: Arc::new(alloc, lowered)?,
        })
    }

    /// An equal code, in a step and without memory of its own. NoMemory where there are 2^63 - 1
    /// of them.
    pub fn copy(&self) -> Result<Code, NoMemory>
        ensures { IfOk result (λ copy. copy ≡ self.now) }
    {
        Ok(Code {
            lowered: Arc::try_clone(&self.lowered)?,
        })
    }

    /// What the copies share.
    #[inline(always)]
    fn lowered(&self) -> &Lowered
        ensures { result.now ≡ self.now }
    {
        &self.lowered
    }

    /// The filter's tree, with its constants substituted: each name of a variable in it is
    /// declared.
    pub fn tree(&self) -> &FilterTree
        ensures tree { result.now ≡ self.now }
        ensures known { IsClosedFilter (filters.filter_of self.now) }
    {
        &self.lowered().tree
    }

    /// Whether there is a prework.
    pub fn has_prework(&self) -> bool
        ensures { result ≡ is_some (filters.prework_block (filters.filter_of self.now).members) }
    {
        bodies::has_prework(&self.lowered().tree.members)
    }

    /// The statements of a body; without a prework each body is the work.
    pub fn block(&self, body: Body) -> &[Stmt]
        ensures placed { result.now ≡ body_statements body self.now.members.items }
        ensures statements { block_view result.now ≡ filters.body_block body
            (filters.filter_of self.now).members }
    {
        bodies::block_of(&self.lowered().tree.members, body)
    }

    /// The rates of a body as they are declared.
    pub fn rates(&self, body: Body) -> DeclaredRates
        ensures push { result.push
            ≡ filters.push_rate (filters.body_rates body (filters.filter_of self.now).members) }
        ensures pop { result.pop
            ≡ filters.pop_rate (filters.body_rates body (filters.filter_of self.now).members) }
        ensures peek { result.peek
            ≡ filters.peek_rate (filters.body_rates body (filters.filter_of self.now).members) }
    {
        let rates = bodies::rates_of(&self.lowered().tree.members, body);
        DeclaredRates {
            push: bodies::rate_of(rates, RateKind::Push),
            pop: bodies::rate_of(rates, RateKind::Pop),
            peek: bodies::peek_rate(rates),
        }
    }

    /// How many items a firing of a body may look at.
    pub fn window(&self, body: Body) -> u32
        ensures { result ≡ filters.window_size
            (filters.body_rates body (filters.filter_of self.now).members) }
    {
        self.routine(body).limits.peek
    }

    /// Whether a firing can print.
    pub fn prints(&self) -> bool
        ensures { result ≡ filters.filter_prints (filters.filter_of self.now) }
    {
        let members = &self.lowered().tree.members;
        bodies::block_prints(bodies::block_of(members, Body::Work))
            || bodies::block_prints(bodies::block_of(members, Body::Prework))
    }

    /// Whether the filter has no state, so that its firings are all alike: it has no prework,
    /// doesn't print, and its work writes no field and no element of one.
    pub fn is_stateless(&self) -> bool
        ensures { result ≡ writes.is_stateless (filters.filter_of self.now) }
    {
        self.lowered().stateless
    }

    /// How many slots the fields take.
    pub fn field_count(&self) -> usize
        ensures { result ≡ total (filters.sized_fields (filters.filter_of self.now).members) }
    {
        self.lowered().fields
    }

    /// How many slots the fields and all that is run need.
    pub fn slot_count(&self) -> usize
        ensures { result ≡ lowering.slot_count (filters.filter_of self.now) }
    {
        self.lowered().slots
    }

    /// How many slots the locals of callers need that wait for their calls.
    pub fn saved_count(&self) -> usize
        ensures { result ≡ saved_count (filters.filter_of self.now) }
    {
        self.lowered().saved
    }

    /// How many slots a call of any of the helper functions needs.
    #[inline(always)]
    pub fn call_count(&self) -> usize
        ensures { result ≡ lowering.helpers_room (lowering.field_scope (filters.filter_of self.now))
            (filters.filter_of self.now).members }
    {
        self.lowered().calls
    }

    /// The code of the helper functions, in order.
    #[inline(always)]
    pub fn helpers(&self) -> &[HelperCode]
        ensures are { AreHelpers (lowering.field_scope (filters.filter_of self.now))
            (filters.filter_of self.now).members result.now }
        ensures linked { AreLinkedCodes (helper_names (filters.filter_of self.now).members)
            result.now }
    {
        &self.lowered().helpers
    }

    /// The routine of the start: the fields' initialisers in order, and then `init`.
    pub fn start_routine(&self) -> &Routine
        ensures code { code_of result.now.code ≡ start_nodes (filters.filter_of self.now) }
        ensures flat { IsFlat result.now.flat (code_of result.now.code) }
        ensures linked { IsLinked (helper_names (filters.filter_of self.now).members)
            result.now.flat }
        ensures closed { IsClosedFilter (filters.filter_of self.now) }
    {
        &self.lowered().start
    }

    /// The routine of a body; without a prework each body is the work.
    #[inline(always)]
    pub fn routine(&self, body: Body) -> &Routine
        ensures code { code_of result.now.code ≡ body_nodes body (filters.filter_of self.now) }
        ensures flat { IsFlat result.now.flat (code_of result.now.code) }
        ensures linked { IsLinked (helper_names (filters.filter_of self.now).members)
            result.now.flat }
        ensures limits { result.now.limits
            ≡ limits_of (filters.body_rates body (filters.filter_of self.now).members) }
        ensures closed { IsClosedFilter (filters.filter_of self.now) }
    {
        let lowered = self.lowered();
        match body {
            Body::Prework => first_of(&lowered.prework, &lowered.work),
            Body::Work => &lowered.work,
        }
    }
}

/// The routine of the first firing.
#[inline(always)]
fn first_of<'a>(prework: &'a Option<Routine>, work: &'a Routine) -> &'a Routine
    ensures { result.now ≡ first_routine prework.now work.now }
{
    match prework {
        Some(prework) => prework,
        None => work,
    }
}
