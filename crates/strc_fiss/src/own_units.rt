// Which firings of a round can be dealt to copies: those that one unit has alone.

ghost use Rattle.std.specs.Prelude.{◌≡◌, ℕ, ◌<◌, ◌||◌, nat_eq, not, cond, All, IfOk, length};
ghost use Rattle.std.specs.Prelude.{get_or, slice_get};
ghost use Rattle.std.specs.List.{list_any};
ghost use Rattle.strc_balance.specs.Balance.{count_at};
ghost use Rattle.strc_fuse.specs.Units.{is_outside, round_unit, round_units};
ghost use Rattle.strc_sched_orders.specs.Peaks.{HasNodes};
ghost use Rattle.strc_fiss.specs.Namings as spec;
ghost use Rattle.strc_fiss.specs.OwnUnits as units;
ghost use Rattle.strc_fiss.specs.declared.own_units.Naming.TheVariants as naming;

use std::alloc::{AllocError, Global};
use strc_balance::counts::{Counts, count_of};
use strc_elab_graph::graph::Graph;
use strc_sched_orders::unit::Unit;

/// How the units of a round name a node.
#[derive(Clone, Copy)]
pub(crate) enum Naming {
    /// None names it.
    Never,
    /// One names it, and fires it alone, so many times.
    Alone(u32),
    /// One names it beside others or twice, or several name it.
    Shared,
}

/// How many firings of each node can be dealt to copies: all that it has in a round where they are
/// in one unit of its own, else none. A node of a feedback loop keeps its count.
pub(crate) fn dealt_counts(
    alloc: Global,
    graph: &Graph,
    round: &[Unit],
    counts: &Counts,
) -> Result<Counts, AllocError>
    requires nodes { All (HasNodes (length graph.now.nodes)) round.now }
    requires loops { length graph.now.outer_loops ≡ length graph.now.nodes }
    ensures { IfOk result (λ dealt. dealt
        ≡ units.dealt_counts graph.now.outer_loops (round_units round.now) counts.now) }
{
    let size = graph.nodes().len();
    let namings = namings_of(alloc, size, round)?;
    let given = counts.as_slice();
    let mut dealt = Vec::with_capacity(alloc, size)?;
    for node in 0..size {
        dealt.push(dealt_count(graph, namings[node], given, node))?;
    }
    Ok(Counts::new(dealt))
}

/// How many firings of a node can be dealt that is named so.
fn dealt_count(graph: &Graph, naming: Naming, counts: &[u32], node: usize) -> u32
    requires { node < length graph.now.nodes }
    ensures { result ≡ cond (not (is_outside (slice_get graph.now.outer_loops node))
        || spec.is_all (count_at counts.now node) naming) (count_at counts.now node) 0 }
{
    let count = count_of(counts, node);
    match graph.outer_loop(node) {
        Some(_) => count,
        None => own_count(naming, count),
    }
}

/// So many firings where they are those of one unit, alone; else none.
fn own_count(naming: Naming, count: u32) -> u32
    ensures { result ≡ cond (spec.is_all count naming) count 0 }
{
    match naming {
        Naming::Alone(turns) => { if turns == count { count } else { 0 } }
        Naming::Never | Naming::Shared => 0,
    }
}

/// How the units of a round name each of so many nodes.
fn namings_of(alloc: Global, size: usize, round: &[Unit]) -> Result<Vec<Naming>, AllocError>
    requires { All (HasNodes size) round.now }
    ensures size { IfOk result (λ namings. length namings.items ≡ size) }
    ensures namings { IfOk result (λ namings. (node : ℕ) → node < size
        → get_or namings.items node naming.Never
        ≡ spec.naming_of node (round_units round.now)) }
{
    let mut namings = Vec::from_elem(alloc, Naming::Never, size)?;
    name_units(&mut namings, round);
    Ok(namings)
}

/// Notes how units name their nodes.
fn name_units(namings: &mut [Naming], round: &[Unit])
    requires { All (HasNodes (length namings.old)) round.now }
    ensures size { length namings.new ≡ length namings.old }
    ensures namings { (node : ℕ) → node < length namings.old
        → get_or namings.new node naming.Never
        ≡ spec.together (get_or namings.old node naming.Never)
        (spec.naming_of node (round_units round.now)) }
{
    for unit in round {
        name_nodes(namings, unit);
    }
}

/// Notes how a unit names its nodes.
fn name_nodes(namings: &mut [Naming], unit: &Unit)
    requires { HasNodes (length namings.old) unit.now }
    ensures size { length namings.new ≡ length namings.old }
    ensures namings { (node : ℕ) → node < length namings.old
        → get_or namings.new node naming.Never
        ≡ spec.together (get_or namings.old node naming.Never)
        (spec.named_by node (round_unit unit.now)) }
{
    if unit.nodes.len() == 1 {
        name_alone(namings, unit.nodes[0] as usize, unit.turns);
    } else {
        share_nodes(namings, &unit.nodes);
    }
}

/// Notes that a unit fires a node alone, so many times.
fn name_alone(namings: &mut [Naming], own: usize, turns: u32)
    requires { own < length namings.old }
    ensures size { length namings.new ≡ length namings.old }
    ensures namings { (node : ℕ) → get_or namings.new node naming.Never
        ≡ cond (nat_eq node own)
        (spec.together (get_or namings.old node naming.Never) (naming.Alone turns))
        (get_or namings.old node naming.Never) }
{
    namings[own] = match namings[own] {
        Naming::Never => Naming::Alone(turns),
        Naming::Alone(_) | Naming::Shared => Naming::Shared,
    };
}

/// Notes that a unit names nodes beside others or twice.
fn share_nodes(namings: &mut [Naming], nodes: &[u32])
    requires { All (λ node. node < length namings.old) nodes.now }
    ensures size { length namings.new ≡ length namings.old }
    ensures namings { (node : ℕ) → get_or namings.new node naming.Never
        ≡ cond (list_any (nat_eq node) nodes.now) naming.Shared
        (get_or namings.old node naming.Never) }
{
    for node in nodes {
        namings[*node as usize] = Naming::Shared;
    }
}
