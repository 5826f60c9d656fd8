// A graph and its schedule after fission.

ghost use Rattle.std.specs.Prelude.{◌≡◌, ℕ, Err, OnOk, OnErr};
ghost use Rattle.strc_elab_graph.specs.NodeView.{graph_view};
ghost use Rattle.strc_fuse.specs.Fusion.{FusedPass, IsFusion};
ghost use Rattle.strc_fuse.specs.Laws.{CanBeFused};
ghost use Rattle.strc_fuse.specs.declared.error.FuseError.TheVariants as refused;

use std::alloc::Global;
use std::marker::Model;
use strc_elab_graph::graph::Graph;
use strc_fuse::error::FuseError;
use strc_fuse::fuse::fuse;
use strc_sched_orders::parts::Schedule;

/// What a node after fission is a part of.
#[derive(Clone, Copy)]
pub struct Origin {
    /// The node before fission.
    pub node: u32,
    /// The first firing of this part in a round, among all firings that the node has in a round: 0
    /// but for copies.
    pub first: u64,
}

/// A graph and its schedule after fission.
pub struct Split {
    graph: Graph,
    schedule: Schedule,
    origins: Vec<Origin>,
}

impl Drop for Split {
    fn drop(self) {
        let Split {
            graph: _,
            schedule: _,
            origins: _,
        } = self;
    }
}

impl Model for Split {
    ghost use Rattle.std.specs.Coded.{codes};
    ghost use Rattle.strc_elab_graph.specs.contracts.graph.Node as node;
    ghost use Rattle.strc_elab_graph.specs.contracts.graph.Channel as channel;
    ghost use Rattle.strc_fiss.specs.Splits.{SplitParts};

    ghost Value = { SplitParts };

    ghost coded = { Prim.hlevel (codes, node.the_row.coded, channel.the_row.coded) };

    ghost view = { λ s. record {
      graph = s.graph;
      schedule = s.schedule;
      origins = s.origins.items;
    } };

    ghost use Rattle.strc_elab_graph.specs.NodeView.{graph_view};
    ghost use Rattle.strc_fuse.specs.Laws.{CanBeFused};

    ghost invariant = { λ s. CanBeFused (graph_view s.graph) s.schedule };
}

impl Split {
    /// A graph and its schedule after fission, and for each of its nodes what it is a part of.
    pub(crate) fn new(graph: Graph, schedule: Schedule, origins: Vec<Origin>) -> Split
        requires { CanBeFused (graph_view graph) schedule }
        ensures { result ≡ record
            { graph = graph; schedule = schedule; origins = origins.items } }
    {
        Split {
            graph,
            schedule,
            origins,
        }
    }

    /// The graph.
    pub fn graph(&self) -> &Graph
        ensures { result.now ≡ self.now.graph }
    {
        &self.graph
    }

    /// The schedule. Its start-up is that of the graph before fission, by the numbers that the
    /// nodes have there, and new channels have no items in it.
    pub fn schedule(&self) -> &Schedule
        ensures { result.now ≡ self.now.schedule }
    {
        &self.schedule
    }

    /// What each node is a part of, in order of their numbers.
    pub fn origins(&self) -> &[Origin]
        ensures { result.now ≡ self.now.origins }
    {
        self.origins.as_slice()
    }

    /// Fuses the units of the round, as `fuse` does, and sizes the buffers anew.
    ///
    /// `BufferLimit` comes for the lowest channel that would hold more than 16,777,216 items then;
    /// `NoMemory` can come in place of any answer. All is then as before.
    pub fn fuse_round(&mut self, alloc: Global, threshold: u32) -> Result<(), FuseError>
        ensures graph { self.new.graph ≡ self.old.graph }
        ensures origins { self.new.origins ≡ self.old.origins }
        ensures fusion { OnOk result (IsFusion (graph_view self.old.graph) threshold
            self.old.schedule self.new.schedule) }
        ensures limit { (channel : ℕ) → result ≡ Err (refused.BufferLimit channel)
            → FusedPass (graph_view self.old.graph) threshold self.old.schedule channel }
        ensures error { OnErr result (self.new ≡ self.old) }
    {
        fuse(alloc, &self.graph, &mut self.schedule, threshold)
    }
}
