// Which nodes are split, and how their firings are dealt.

ghost use Rattle.std.specs.Prelude.{◌≡◌, ℕ, ◌<◌, ◌≤◌, ◌/◌, ◌^◌, ◌&&◌, ◌||◌, nat_eq, nat_lt};
ghost use Rattle.std.specs.Prelude.{All, IfOk, map, cond};
ghost use Rattle.std.specs.Prelude.{length, get_or, slice_get, false, not, Some};
ghost use Rattle.strc_fuse.specs.Units.{is_outside};
ghost use Rattle.strc_elab_graph.specs.Graphs as graphs;
ghost use Rattle.strc_elab_graph.specs.Graphs.{JoinsPorts};
ghost use Rattle.strc_elab_graph.specs.NodeView.{graph_view, node_view, channel_view};
ghost use Rattle.strc_work_meaning.specs.Filters as filters;
ghost use Rattle.strc_work_meaning.specs.Filters.{filter_of};
ghost use Rattle.strc_work_writes.specs.Stateless.{is_stateless};
ghost use Rattle.strc_fiss.specs.Ways as spec;

use std::alloc::{AllocError, Global};
use strc_balance::counts::{Counts, count_of};
use strc_elab_graph::graph::{Channel, Fission, Graph, Node};
use strc_lex_names::memory::NoMemory;
use strc_parse_tree::tree::ItemType;
use strc_rate::stateless::stateless;
use strc_work_code::code::Code;
use strc_work_meaning::body::Body;

/// A node that is not split.
const WHOLE: Fission = Fission {
    ways: 1,
    firings: 0,
    pop: 0,
    window: 0,
    push: 0,
};

/// How the firings of each node in a round are dealt to copies: at most so many.
pub(crate) fn shares_of(
    alloc: Global,
    graph: &Graph,
    counts: &Counts,
    ways: u32,
) -> Result<Vec<Fission>, NoMemory>
    ensures size { IfOk result (λ shares. length shares.items ≡ length graph.now.nodes) }
    ensures shares { IfOk result (λ shares. (node : ℕ) → get_or shares.items node spec.whole
        ≡ spec.fission_of (graph_view graph.now) counts.now ways node) }
{
    let size = graph.nodes().len();
    let own = own_marks(alloc, graph.channels(), size)?;
    let mut shares = Vec::with_capacity(alloc, size)?;
    for node in 0..size {
        shares.push(share_at(alloc, graph, &own, counts, ways, node)?)?;
    }
    Ok(shares)
}

/// How the firings of a node are dealt.
fn share_at(
    alloc: Global,
    graph: &Graph,
    own: &[bool],
    counts: &Counts,
    ways: u32,
    node: usize,
) -> Result<Fission, NoMemory>
    requires node { node < length graph.now.nodes }
    requires marks { length own.now ≡ length graph.now.nodes }
    requires own { get_or own.now node false
        ≡ spec.feeds_itself (map channel_view graph.now.channels) node }
    ensures { IfOk result (λ share. share
        ≡ spec.fission_of (graph_view graph.now) counts.now ways node) }
{
    let alone = is_alone(graph, own, node);
    share_of(
        alloc,
        &graph.nodes()[node],
        alone,
        count_of(counts.as_slice(), node),
        ways,
    )
}

/// Whether a node stands in no feedback loop, and no channel leads from it to itself.
fn is_alone(graph: &Graph, own: &[bool], node: usize) -> bool
    requires node { node < length graph.now.nodes }
    requires marks { length own.now ≡ length graph.now.nodes }
    ensures { result ≡ (is_outside (slice_get graph.now.outer_loops node)
        && not (get_or own.now node false)) }
{
    match graph.outer_loop(node) {
        Some(_) => false,
        None => !own[node],
    }
}

/// For each node whether a channel leads from it to itself.
fn own_marks(alloc: Global, channels: &[Channel], size: usize) -> Result<Vec<bool>, AllocError>
    requires { All (λ channel. channel.source.node < size) channels.now }
    ensures size { IfOk result (λ marks. length marks.items ≡ size) }
    ensures marks { IfOk result (λ marks. (node : ℕ) → node < size → get_or marks.items node false
        ≡ spec.feeds_itself (map channel_view channels.now) node) }
{
    let mut marks = Vec::from_elem(alloc, false, size)?;
    for channel in channels {
        mark(&mut marks, channel);
    }
    Ok(marks)
}

/// Marks a node where a channel leads from it to itself.
fn mark(marks: &mut [bool], channel: &Channel)
    requires { channel.now.source.node < length marks.old }
    ensures size { length marks.new ≡ length marks.old }
    ensures marks { (node : ℕ) → node < length marks.old → get_or marks.new node false
        ≡ (get_or marks.old node false || spec.is_own node (channel_view channel.now)) }
{
    if channel.source.node == channel.target.node {
        marks[channel.source.node as usize] = true;
    }
}

/// How the firings of a node are dealt, where it stands outside feedback loops or not, and fires so
/// often in a round.
fn share_of(
    alloc: Global,
    node: &Node,
    alone: bool,
    count: u32,
    ways: u32,
) -> Result<Fission, NoMemory>
    ensures { IfOk result (λ share. share ≡ spec.dealt (Some (node_view node.now)) count
        (cond ((spec.is_alike (Some (node_view node.now)) && alone) && nat_lt 0 count)
        (spec.greatest_divisor count ways) 1)) }
{
    match node {
        Node::Filter(instance) => filter_share(alloc, &instance.code, alone, count, ways),
        Node::Identity => Ok(identity_share(alone, count, ways)),
        Node::FileReader(_)
        | Node::FileWriter(_)
        | Node::Splitter(_)
        | Node::Joiner(_)
        | Node::Scatter(_)
        | Node::Copy(_, _)
        | Node::Gather(_) => Ok(WHOLE),
    }
}

/// How the firings of an identity are dealt.
fn identity_share(alone: bool, count: u32, ways: u32) -> Fission
    ensures { result ≡ spec.dealt (Some graphs.Identity) count
        (cond (alone && nat_lt 0 count) (spec.greatest_divisor count ways) 1) }
{
    let copies = copies_of(alone, count, ways);
    Fission {
        ways: copies,
        firings: count / copies,
        pop: 1,
        window: 1,
        push: 1,
    }
}

/// How the firings of a filter are dealt.
fn filter_share(
    alloc: Global,
    code: &Code,
    alone: bool,
    count: u32,
    ways: u32,
) -> Result<Fission, NoMemory>
    ensures { IfOk result (λ share. share ≡ record {
      ways = cond (((spec.passes_items (filter_of code.now) && is_stateless (filter_of code.now))
          && alone) && nat_lt 0 count) (spec.greatest_divisor count ways) 1;
      firings = count / (cond (((spec.passes_items (filter_of code.now)
          && is_stateless (filter_of code.now)) && alone) && nat_lt 0 count)
          (spec.greatest_divisor count ways) 1);
      pop = spec.work_pop (filter_of code.now);
      window = spec.work_window (filter_of code.now);
      push = spec.work_push (filter_of code.now);
    }) }
{
    let rates = code.rates(Body::Work);
    let alike = passes_items(code) && stateless(code);
    let copies = copies_of(alike && alone, count, ways);
    Ok(Fission {
        ways: copies,
        firings: count / copies,
        pop: item_count(rates.pop),
        window: code.window(Body::Work),
        push: item_count(rates.push),
    })
}

/// Whether a filter takes items by one port and gives items by one.
fn passes_items(code: &Code) -> bool
    ensures { result ≡ spec.passes_items (filter_of code.now) }
{
    let rates = code.rates(Body::Work);
    let tree = code.tree();
    has_items(tree.input, rates.pop) && has_items(tree.output, rates.push)
}

/// Whether a side of a filter has a port, and a rate of at least 1.
fn has_items(side: ItemType, rate: i32) -> bool
    ensures { result ≡ (nat_eq (graphs.ports_of side) 1 && nat_lt 0 (filters.item_count rate)) }
{
    match side {
        ItemType::Int => rate > 0,
        ItemType::Void => false,
    }
}

/// A rate as a number of items: none where it is below 0.
fn item_count(rate: i32) -> u32
    ensures { result ≡ filters.item_count rate }
{
    if rate < 0 { 0 } else { rate as u32 }
}

/// Among how many copies a node is split that fires so often: 1 where it stays whole.
fn copies_of(splits: bool, count: u32, ways: u32) -> u32
    ensures copies { result ≡ cond (splits && nat_lt 0 count) (spec.greatest_divisor count ways) 1 }
    ensures some { 0 < result }
{
    if splits && count > 0 {
        greatest_divisor(count, ways)
    } else {
        1
    }
}

/// The greatest divisor of a number that is at most another one.
fn greatest_divisor(count: u32, most: u32) -> u32
    ensures divisor { result ≡ spec.greatest_divisor count most }
    ensures some { 0 < result }
{
    let mut divisor = most;
    while divisor > 1 && count % divisor != 0 {
        divisor -= 1;
    }
    divisor.max(1)
}
