// The first two nodes of a program that don't go together.

ghost use Rattle.std.specs.Prelude.{◌≡◌, ◌<◌, ℕ, IfOk, IfSome, length, position};
ghost use Rattle.strc_cli_places.specs.Pairs as spec;
ghost use Rattle.strc_run_refusal.specs.declared.refusal.Refusal.TheVariants as refused_for;

use std::alloc::Global;
use strc_cli_source::preorder::{Preorder, Seen};
use strc_lex_names::memory::NoMemory;
use strc_run_refusal::refusal::Refusal;

/// The first two nodes that don't go together: that take the input, that write to one file, or that
/// no channels join.
pub fn pair_of(
    alloc: Global,
    order: &Preorder,
    refusal: &Refusal,
) -> Result<Option<(usize, usize)>, NoMemory>
    ensures readers { refusal.now ≡ refused_for.TwoInputs
        → IfOk result (λ pair. pair ≡ spec.first_readers order.now.nodes.items) }
    ensures writers { (node : ℕ) → refusal.now ≡ refused_for.TapeTwice node
        → IfOk result (λ pair. pair ≡ spec.first_writer order.now.nodes.items node) }
    ensures apart { refusal.now ≡ refused_for.Disconnected
        → IfOk result (spec.AreApart order.now) }
{
    match refusal {
        Refusal::TwoInputs => Ok(two_readers(&order.nodes)),
        Refusal::TapeTwice { node } => Ok(two_writers(&order.nodes, *node)),
        _ => match order.first_apart(alloc)? {
            Some(node) => Ok(Some((0, node))),
            None => Ok(None),
        },
    }
}

/// The first writer of a node's file, and the node.
fn two_writers(nodes: &[Seen], node: usize) -> Option<(usize, usize)>
    ensures { result ≡ spec.first_writer nodes.now node }
{
    let file = nodes.get(node)?.file.as_ref()?;
    let first = first_writer(nodes, file)?;
    Some((first, node))
}

/// The first node that writes to a file.
fn first_writer(nodes: &[Seen], file: &[u8]) -> Option<usize>
    ensures { result ≡ position (spec.writes_to file.now) nodes.now }
{
    nodes.iter().position(|seen| match &seen.file {
        Some(other) => other.as_slice() == file,
        None => false,
    })
}

/// The first two nodes that take the input.
fn two_readers(nodes: &[Seen]) -> Option<(usize, usize)>
    ensures { result ≡ spec.first_readers nodes.now }
{
    let first = first_reader(nodes)?;
    let more = first_reader(&nodes[first + 1..])?;
    Some((first, first + 1 + more))
}

/// The first node that takes the input.
fn first_reader(nodes: &[Seen]) -> Option<usize>
    ensures found { result ≡ position spec.takes_input nodes.now }
    ensures within { IfSome result (λ first. first < length nodes.now) }
{
    nodes.iter().position(|seen| seen.reads)
}
