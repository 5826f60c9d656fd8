// The rates of the nodes of a program, one by one.

ghost use Rattle.std.specs.Prelude.{◌≡◌, map};
ghost use Rattle.strc_elab_graph.specs.NodeView.{node_view};
ghost use Rattle.strc_run.specs.Rates as spec;
ghost use Rattle.strc_run.specs.Verdicts.{IsVerdict};

use crate::refusal::Refusal;
use std::alloc::Global;
use strc_elab_graph::graph::Node;
use strc_rate::rates::{RateError, check};

/// Tests the rates of each node, in order, and tells the first refusal of its node: of a filter
/// limits, counts, declared against counted, and peeks, of the prework before the work.
pub fn check_rates(alloc: Global, nodes: &[Node]) -> Result<(), Refusal>
    ensures { IsVerdict (λ done. done) (spec.rates_checked 0 (map node_view nodes.now)) result }
{
    for (number, node) in nodes.iter().enumerate() {
        match check_node(alloc, number, node) {
            Ok(()) => {}
            Err(refusal) => return Err(refusal),
        }
    }
    Ok(())
}

// Tests the rates of a node; nodes other than filters have none to test.
fn check_node(alloc: Global, number: usize, node: &Node) -> Result<(), Refusal>
    ensures { IsVerdict (λ done. done) (spec.node_checked number (node_view node.now)) result }
{
    match node {
        Node::Filter(instance) => match check(alloc, &instance.code) {
            Ok(_) => Ok(()),
            Err(error) => Err(rate_refusal_of(number, error)),
        },
        Node::Identity
        | Node::FileReader(_)
        | Node::FileWriter(_)
        | Node::Splitter(_)
        | Node::Joiner(_)
        | Node::Scatter(_)
        | Node::Copy(_, _)
        | Node::Gather(_) => Ok(()),
    }
}

// A refusal of a filter's rates, with its node.
fn rate_refusal_of(node: usize, error: RateError) -> Refusal
    ensures { result ≡ spec.rate_refusal_of node error }
{
    match error {
        RateError::RateLimit => Refusal::RateLimit { node },
        RateError::RateUnknown => Refusal::RateUnknown { node },
        RateError::RateMismatch { declared, counted } => Refusal::RateMismatch {
            node,
            declared,
            counted,
        },
        RateError::PeekOutside => Refusal::PeekOutside { node },
        RateError::NoMemory => Refusal::NoMemory,
    }
}
