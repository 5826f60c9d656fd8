// A plan: what a program is run by.

ghost use Rattle.std.specs.Prelude.{◌≡◌, All, IfOk, length};
ghost use Rattle.strc_elab_graph.specs.Graphs.{IsGraph};
ghost use Rattle.strc_elab_graph.specs.NodeView.{graph_view};
ghost use Rattle.strc_sched_orders.specs.Peaks.{HasNodes};
ghost use Rattle.strc_sched_laws.specs.Planned.{IsPlanned};
ghost use Rattle.strc_stage_plan.specs.Plans.{HasRound, HasSchedule, HasStartup, IsPlan, IsWhole};
ghost use Rattle.strc_stage_plan.specs.Plans.{graph_of, transformed_of};

use std::alloc::Global;
use std::marker::Model;
use std::sync::Arc;
use strc_balance::counts::Counts;
use strc_elab_graph::graph::Graph;
use strc_fiss::split::{Origin, Split};
use strc_lex_names::memory::NoMemory;
use strc_sched_orders::parts::Schedule;

/// A flat graph, how often each of its nodes fires before the first round and in each round, and
/// the schedule of these firings (Lee and Messerschmitt 1987: a periodic admissible sequential
/// schedule); and the graph and its schedule after fission and fusion, which are what is run.
///
/// Its copies share these.
pub struct Plan {
    shared: Arc<Shared>,
}

impl Drop for Plan {
    fn drop(self) {
        let Plan { shared: _ } = self;
    }
}

impl Model for Plan {
    ghost use Rattle.std.specs.Arc.{arc_value};
    ghost use Rattle.std.specs.Coded.{codes};
    ghost use Rattle.strc_elab_graph.specs.contracts.graph.Node as node;
    ghost use Rattle.strc_elab_graph.specs.contracts.graph.Channel as channel;
    ghost use Rattle.strc_stage_plan.specs.Plans.{PlanParts};

    ghost Value = { PlanParts };

    ghost coded = { Prim.hlevel (codes, node.the_row.coded, channel.the_row.coded) };

    ghost view = { λ p. arc_value p.shared };
}

/// What the copies of a plan share.
struct Shared {
    graph: Graph,
    startup_counts: Counts,
    round_counts: Counts,
    schedule: Schedule,
    split: Split,
    /// The path of each node of `graph` in its stream. Contracts see nothing of it.
    paths: Vec<Vec<u8>>,
}

impl Drop for Shared {
    fn drop(self) {
        let Shared {
            graph: _,
            startup_counts: _,
            round_counts: _,
            schedule: _,
            split: _,
            paths: _,
        } = self;
    }
}

impl Model for Shared {
    ghost use Rattle.std.specs.Coded.{codes};
    ghost use Rattle.strc_elab_graph.specs.contracts.graph.Node as node;
    ghost use Rattle.strc_elab_graph.specs.contracts.graph.Channel as channel;
    ghost use Rattle.strc_stage_plan.specs.Plans.{IsPlan, PlanParts, parts_of};

    ghost Value = { PlanParts };

    ghost coded = { Prim.hlevel (codes, node.the_row.coded, channel.the_row.coded) };

    ghost view = { λ p. parts_of p.graph p.startup_counts p.round_counts p.schedule p.split };

    ghost invariant = { λ p. IsPlan (parts_of p.graph p.startup_counts p.round_counts p.schedule
        p.split) };
}

impl Plan {
    ghost use Rattle.strc_stage_plan.specs.Plans.{parts_of};

    /// The plan of a graph whose nodes fire so often before the first round and in each, in the
    /// order of this schedule, and of what fission and fusion make of both.
    ///
    /// The graph is the flat graph of a whole program, as `flatten` gives it. Its filters start
    /// without a fault, `check` is Ok for each, and there are no scatters, copies or gathers; the
    /// counts are the graph's least ones, as `startup` and `balance` give them, and the schedule is
    /// that of these counts, as `schedule` gives it. What is run is what `fission` makes of the
    /// graph and the schedule, with its round fused by `fuse_round`. The paths are those of the
    /// graph's nodes in its stream.
    pub fn new(
        alloc: Global,
        graph: Graph,
        startup_counts: Counts,
        round_counts: Counts,
        schedule: Schedule,
        split: Split,
        paths: Vec<Vec<u8>>,
    ) -> Result<Plan, NoMemory>
        requires { IsPlan (parts_of graph startup_counts round_counts schedule split) }
        ensures { IfOk result (λ plan. plan
            ≡ parts_of graph startup_counts round_counts schedule split) }
    {
        let shared = Shared {
            graph,
            startup_counts,
            round_counts,
            schedule,
            split,
            paths,
        };
        Ok(Plan {
            shared: Arc::new(alloc, shared)?,
        })
    }

    /// An equal plan, in a step and without memory of its own. `NoMemory` where there are 2^63 - 1
    /// of them.
    pub fn copy(&self) -> Result<Plan, NoMemory>
        ensures { IfOk result (λ copy. copy ≡ self.now) }
    {
        Ok(Plan {
            shared: Arc::try_clone(&self.shared)?,
        })
    }

    /// What the copies share.
    fn shared(&self) -> &Shared
        ensures { result.now ≡ self.now }
    {
        &self.shared
    }

    /// The flat graph before fission.
    pub fn graph(&self) -> &Graph
        ensures graph { result.now ≡ self.now.graph }
        ensures whole { IsWhole (graph_view result.now) }
    {
        &self.shared().graph
    }

    /// How often each node of `graph` fires before the first round: the least counts that prime it.
    pub fn startup_counts(&self) -> &Counts
        ensures counts { result.now ≡ self.now.startup_counts }
        ensures least { HasStartup (graph_of self.now) result.now }
        ensures nodes { length result.now ≡ length self.now.graph.nodes }
    {
        &self.shared().startup_counts
    }

    /// How often each node of `graph` fires in a round: its repetition vector, the least counts
    /// that balance it.
    pub fn round_counts(&self) -> &Counts
        ensures counts { result.now ≡ self.now.round_counts }
        ensures least { HasRound (graph_of self.now) result.now }
        ensures nodes { length result.now ≡ length self.now.graph.nodes }
    {
        &self.shared().round_counts
    }

    /// The schedule of these firings, before fission and fusion.
    pub fn schedule(&self) -> &Schedule
        ensures schedule { result.now ≡ self.now.schedule }
        ensures is { HasSchedule (graph_of self.now) self.now.startup_counts self.now.round_counts
            result.now }
        ensures planned { IsPlanned (graph_of self.now) result.now }
    {
        &self.shared().schedule
    }

    /// The size of the buffer of each channel of `graph` under `schedule`, in items, from 0 to
    /// 16,777,216.
    pub fn sizes(&self) -> &[u32]
        ensures sizes { result.now ≡ self.now.schedule.sizes }
        ensures channels { length result.now ≡ length self.now.graph.channels }
    {
        self.schedule().sizes()
    }

    /// The graph after fission, which is what is run.
    pub fn transformed_graph(&self) -> &Graph
        ensures { result.now ≡ self.now.split.graph }
    {
        self.shared().split.graph()
    }

    /// The schedule of `transformed_graph`, after fission and fusion, which is what is run. Its
    /// start-up is that of `schedule`, by the numbers that the nodes have in `graph`; its round
    /// names nodes of `transformed_graph`.
    pub fn transformed_schedule(&self) -> &Schedule
        ensures schedule { result.now ≡ self.now.split.schedule }
        ensures nodes { All (HasNodes (length self.now.split.graph.nodes)) result.now.round }
    {
        self.shared().split.schedule()
    }

    /// The size of the buffer of each channel of `transformed_graph` under `transformed_schedule`,
    /// in items, from 0 to 16,777,216.
    pub fn transformed_sizes(&self) -> &[u32]
        ensures sizes { result.now ≡ self.now.split.schedule.sizes }
        ensures channels { length result.now ≡ length self.now.split.graph.channels }
    {
        let split = &self.shared().split;
        split.schedule().sizes()
    }

    /// For each node of `transformed_graph` the node of `graph` whose firings it does, and from
    /// which one on in a round, in order of their numbers.
    pub fn origins(&self) -> &[Origin]
        ensures { result.now ≡ self.now.split.origins }
    {
        self.shared().split.origins()
    }

    /// The path of each node of `graph` in its stream, for those who read of it.
    pub fn paths(&self) -> &[Vec<u8>] {
        &self.shared().paths
    }

    /// What is known of each plan, together.
    pub fn known(&self)
        ensures is { IsPlan self.now }
        ensures graph { IsGraph (graph_of self.now) }
        ensures transformed { IsGraph (transformed_of self.now) }
    {
        let shared = self.shared();
        let _channels = shared.graph.channels();
        let _transformed = shared.split.graph().channels();
    }
}
