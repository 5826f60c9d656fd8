// Whether channels connect all nodes, taken without direction.

ghost use Rattle.std.specs.Prelude.{◌≡◌, ℕ, ◌<◌, ◌≤◌, ◌↔◌, length, map, All, IsTrue, IfOk};
ghost use Rattle.std.specs.Prelude.{slice_index, EachIndex};
ghost use Rattle.strc_elab_graph.specs.NodeView.{channel_view};
ghost use Rattle.strc_elab_flattening.specs.Connecting.{EndsBelow, AreConnected, AreTrees, IsRoot};
ghost use Rattle.strc_elab_flattening.specs.Connecting.{Climbs, AreLinked, HaveOneRoot};

use std::alloc::{AllocError, Global};
use strc_elab_graph::graph::Channel;

/// Whether there is a path along channels and against them from each number below this one to each
/// other.
///
/// Numbers that are connected so far are in one tree, by their parents, and each channel links
/// the trees of its ends. A tree is about as deep as streams are nested, at most 64 levels: only
/// streams that take no items are alone until a joiner links them.
pub(crate) fn are_connected(
    alloc: Global,
    count: u32,
    channels: &[Channel],
) -> Result<bool, AllocError>
    requires { All (EndsBelow count) (map channel_view channels.now) }
    ensures { IfOk result (λ connected. IsTrue connected
        ↔ AreConnected count (map channel_view channels.now)) }
{
    let mut parents = own_parents(alloc, count)?;
    for channel in channels {
        link(&mut parents, channel.source.node, channel.target.node);
    }
    Ok(have_one_root(&parents))
}

/// Each number below this one as its own parent.
fn own_parents(alloc: Global, count: u32) -> Result<Vec<u32>, AllocError>
    ensures { IfOk result (λ parents. (length parents.items ≡ count)
        × EachIndex parents.items (IsRoot parents.items)) }
{
    let mut parents = Vec::new(alloc);
    for number in 0..count {
        parents.push(number)?;
    }
    Ok(parents)
}

/// Links the trees of two numbers.
fn link(parents: &mut Vec<u32>, one: u32, other: u32)
    requires trees { AreTrees parents.old.items }
    requires one { one < length parents.old.items }
    requires other { other < length parents.old.items }
    ensures { AreLinked parents.old.items parents.new.items one other }
{
    let one = root_of(parents, one);
    let other = root_of(parents, other);
    if one < other {
        parents[other as usize] = one;
    } else {
        parents[one as usize] = other;
    }
}

/// The root of a number's tree.
fn root_of(parents: &[u32], node: u32) -> u32
    requires trees { AreTrees parents.now }
    requires within { node < length parents.now }
    ensures within { result < length parents.now }
    ensures root { IsRoot parents.now result }
    ensures climbs { Climbs parents.now node result }
{
    let mut root = node;
    while parents[root as usize] != root {
        root = parents[root as usize];
    }
    root
}

/// Whether there is no root but 0.
fn have_one_root(parents: &[u32]) -> bool
    ensures { IsTrue result ↔ HaveOneRoot parents.now }
{
    for node in 1..parents.len() {
        if parents[node] as usize == node {
            return false;
        }
    }
    true
}
