// How many items a firing of a node looks at, takes and gives at each of its ports.

ghost use Rattle.std.specs.Prelude.{◌≡◌, ◌+◌, ◌-◌, ◌*◌, ◌<◌, ◌≤◌, ◌^◌, sum, slice_index};
ghost use Rattle.std.specs.Prelude.{slice_index_or, false, if◌then◌else◌};
ghost use Rattle.strc_elab_graph.specs.NodeView.{node_view, splitter_view};
ghost use Rattle.strc_elab_graph.specs.Rates as rates;
ghost use Rattle.strc_work_meaning.specs.Filters as filters;

use crate::graph::{Fission, Node, Splitter};
use strc_work_meaning::body::Body;

/// How many items a firing of a node looks at, at an input port; 0 where it has no such port.
///
/// Firings are numbered from 0 over the node's life, and a filter's prework is firing 0. A reader's
/// port 0 is the program's input. The number is below 2 ^ 96: weights can be as many as memory
/// holds.
pub fn window_at(node: &Node, firing: u64, port: usize) -> u128
    ensures window { result ≡ rates.window_at (node_view node.now) firing port }
    ensures bound { result < 2 ^ 96 }
{
    match node {
        Node::Filter(instance) => {
            rate_at_0(u128::from(instance.code.window(body_at(firing))), port)
        }
        Node::Identity | Node::FileReader(_) | Node::FileWriter(_) => rate_at_0(1, port),
        Node::Splitter(splitter) => rate_at_0(splitter_pops(splitter), port),
        Node::Joiner(weights) => weight_at(weights, port),
        Node::Scatter(fission) => rate_at_0(scatter_window(*fission), port),
        Node::Copy(_, fission) => rate_at_0(u128::from(fission.window), port),
        Node::Gather(fission) => gather_pops(*fission, port),
    }
}

/// How many items a firing of a node takes at an input port, as `window_at` has firings and ports.
pub fn pops_at(node: &Node, firing: u64, port: usize) -> u128
    ensures pops { result ≡ rates.pops_at (node_view node.now) firing port }
    ensures bound { result < 2 ^ 96 }
{
    match node {
        Node::Filter(instance) => rate_at_0(
            item_count(instance.code.rates(body_at(firing)).pop),
            port,
        ),
        Node::Identity | Node::FileReader(_) | Node::FileWriter(_) => rate_at_0(1, port),
        Node::Splitter(splitter) => rate_at_0(splitter_pops(splitter), port),
        Node::Joiner(weights) => weight_at(weights, port),
        Node::Scatter(fission) => {
            rate_at_0(product(fission.ways, fission.firings, fission.pop), port)
        }
        Node::Copy(_, fission) => rate_at_0(copy_pops(*fission, firing), port),
        Node::Gather(fission) => gather_pops(*fission, port),
    }
}

/// How many items a firing of a node gives at an output port, as `window_at` has firings.
pub fn pushes_at(node: &Node, firing: u64, port: usize) -> u128
    ensures pushes { result ≡ rates.pushes_at (node_view node.now) firing port }
    ensures bound { result < 2 ^ 96 }
{
    match node {
        Node::Filter(instance) => rate_at_0(
            item_count(instance.code.rates(body_at(firing)).push),
            port,
        ),
        Node::Identity | Node::FileReader(_) => rate_at_0(1, port),
        Node::FileWriter(_) => 0,
        Node::Splitter(splitter) => splitter_pushes(splitter, port),
        Node::Joiner(weights) => rate_at_0(total(weights), port),
        Node::Scatter(fission) => scatter_pushes(*fission, port),
        Node::Copy(_, fission) => rate_at_0(u128::from(fission.push), port),
        Node::Gather(fission) => {
            rate_at_0(product(fission.ways, fission.firings, fission.push), port)
        }
    }
}

/// The body of a firing: that of the first one is the prework, where there is one.
#[inline]
pub fn body_at(firing: u64) -> Body
    ensures { result ≡ rates.body_at firing }
{
    if firing == 0 {
        Body::Prework
    } else {
        Body::Work
    }
}

/// A rate at port 0 alone.
fn rate_at_0(rate: u128, port: usize) -> u128
    ensures rate { result ≡ rates.rate_at_0 rate port }
    ensures bound { result ≤ rate }
{
    if port == 0 { rate } else { 0 }
}

/// How many items a splitter takes.
fn splitter_pops(splitter: &Splitter) -> u128
    ensures pops { result ≡ rates.splitter_pops (splitter_view splitter.now) }
    ensures bound { result < 2 ^ 96 }
{
    match splitter {
        Splitter::Duplicate(_) => 1,
        Splitter::Roundrobin(weights) => total(weights),
    }
}

/// How many items a splitter gives at a port.
fn splitter_pushes(splitter: &Splitter, port: usize) -> u128
    ensures pushes { result ≡ rates.splitter_pushes (splitter_view splitter.now) port }
    ensures bound { result < 2 ^ 96 }
{
    match splitter {
        Splitter::Duplicate(carried) => carried_at(carried, port),
        Splitter::Roundrobin(weights) => weight_at(weights, port),
    }
}

/// One item where a port carries items.
fn carried_at(carried: &[bool], port: usize) -> u128
    ensures carried { result ≡ (if slice_index_or carried.now port false then 1 else 0) }
    ensures bound { result < 2 ^ 96 }
{
    if port < carried.len() && carried[port] {
        1
    } else {
        0
    }
}

/// The weight of a port.
fn weight_at(weights: &[u32], port: usize) -> u128
    ensures weight { result ≡ slice_index weights.now port }
    ensures bound { result < 2 ^ 96 }
{
    if port < weights.len() {
        u128::from(weights[port])
    } else {
        0
    }
}

/// All weights together.
fn total(weights: &[u32]) -> u128
    ensures total { result ≡ sum weights.now }
    ensures bound { result < 2 ^ 96 }
{
    let mut total: u128 = 0;
    for weight in weights {
        total += u128::from(*weight);
    }
    total
}

/// A rate as a number of items: none where it is below 0.
fn item_count(rate: i32) -> u128
    ensures count { result ≡ filters.item_count rate }
    ensures bound { result < 2 ^ 96 }
{
    if rate < 0 { 0 } else { rate as u128 }
}

/// How many items a scatter looks at: the windows of a round's firings.
fn scatter_window(fission: Fission) -> u128
    ensures window { result ≡ rates.reach fission (fission.ways * fission.firings) }
    ensures bound { result < 2 ^ 96 }
{
    let past = fission.window.saturating_sub(fission.pop);
    product(fission.ways, fission.firings, fission.pop) + u128::from(past)
}

/// How many items a scatter gives a copy: the windows of its firings.
fn scatter_pushes(fission: Fission, port: usize) -> u128
    ensures pushes { result ≡ rates.at_ports fission.ways
        (rates.reach fission fission.firings) port }
    ensures bound { result < 2 ^ 96 }
{
    let past = fission.window.saturating_sub(fission.pop);
    if port < fission.ways as usize {
        product(1, fission.firings, fission.pop) + u128::from(past)
    } else {
        0
    }
}

/// How many items a copy takes: all that it looks at with its last firing of a round.
fn copy_pops(fission: Fission, firing: u64) -> u128
    ensures pops { result ≡ rates.copy_pops fission firing }
    ensures bound { result < 2 ^ 96 }
{
    let firings = u64::from(fission.firings);
    if firings > 0 && firing % firings + 1 == firings {
        u128::from(fission.window)
    } else {
        u128::from(fission.pop)
    }
}

/// How many items a gather takes of a copy.
fn gather_pops(fission: Fission, port: usize) -> u128
    ensures pops { result ≡ rates.at_ports fission.ways (fission.firings * fission.push) port }
    ensures bound { result < 2 ^ 96 }
{
    if port < fission.ways as usize {
        product(1, fission.firings, fission.push)
    } else {
        0
    }
}

/// A product of three numbers.
fn product(first: u32, second: u32, third: u32) -> u128
    ensures product { result ≡ first * second * third }
    ensures bound { result ≤ (2 ^ 32 - 1) * (2 ^ 32 - 1) * (2 ^ 32 - 1) }
{
    u128::from(first) * u128::from(second) * u128::from(third)
}

/// Whether a node is a scatter, a copy or a gather, which have no rates by `work`.
pub fn fires_by_rounds(node: &Node) -> bool
    ensures { result ≡ rates.fires_by_rounds (node_view node.now) }
{
    match node {
        Node::Scatter(_) | Node::Copy(_, _) | Node::Gather(_) => true,
        Node::Filter(_)
        | Node::Identity
        | Node::FileReader(_)
        | Node::FileWriter(_)
        | Node::Splitter(_)
        | Node::Joiner(_) => false,
    }
}
