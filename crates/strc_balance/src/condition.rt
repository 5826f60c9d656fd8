// The condition of balancing a graph, as a test.

ghost use Rattle.std.specs.Prelude.{◌≡◌, ◌↔◌, All, IfOk, IsTrue};
ghost use Rattle.strc_elab_graph.specs.Connections.{IsConnected};
ghost use Rattle.strc_elab_graph.specs.NodeView.{graph_view};
ghost use Rattle.strc_balance.specs.Balance.{AreConnected, HasRates};
ghost use Rattle.strc_balance.specs.Conditions.{AreKnown, all_unit_rates};
ghost use Rattle.strc_balance.specs.Rates.{IsRated, equations_of};

use crate::equation::Equation;
use crate::fraction::Fraction;
use crate::propagation::spread;
use crate::rates::equations_of;
use std::alloc::{AllocError, Global};
use strc_elab_graph::graph::Graph;
use strc_lex_names::memory::NoMemory;

/// Whether a graph can be given to `balance`: both ends of each channel have a rate of at least 1
/// by `work`, and all nodes are connected by channels, taken without direction.
pub fn can_balance(alloc: Global, graph: &Graph) -> Result<bool, NoMemory>
    ensures { IfOk result (λ can. IsTrue can ↔ (All IsRated (equations_of (graph_view graph.now))
        × IsConnected (graph_view graph.now))) }
{
    let nodes = graph.nodes();
    let equations = equations_of(alloc, nodes, graph.channels())?;
    if !are_rated(&equations) {
        return Ok(false);
    }
    are_connected(alloc, &equations, nodes.len())
}

/// Whether both ends of each channel have a rate.
fn are_rated(equations: &[Equation]) -> bool
    ensures { IsTrue result ↔ All IsRated equations.now }
{
    for equation in equations {
        if !is_rated(*equation) {
            return false;
        }
    }
    true
}

/// Whether both ends of a channel have a rate.
fn is_rated(equation: Equation) -> bool
    ensures { IsTrue result ↔ IsRated equation }
{
    equation.push > 0 && equation.pop > 0
}

/// Whether all of so many nodes are connected.
fn are_connected(alloc: Global, equations: &[Equation], size: usize) -> Result<bool, NoMemory>
    requires { All (HasRates size) equations.now }
    ensures { IfOk result (λ connected. IsTrue connected ↔ AreConnected size equations.now) }
{
    let channels = with_unit_rates(alloc, equations)?;
    // With rates of 1 no fraction is too large.
    match spread(alloc, &channels, size) {
        Ok(fractions) => Ok(are_known(&fractions)),
        Err(_) => Err(NoMemory),
    }
}

/// The same channels with rates of 1.
fn with_unit_rates(alloc: Global, equations: &[Equation]) -> Result<Vec<Equation>, AllocError>
    ensures { IfOk result (λ channels. channels.items ≡ all_unit_rates equations.now) }
{
    let mut channels = Vec::with_capacity(alloc, equations.len())?;
    for equation in equations {
        channels.push(Equation {
            source: equation.source,
            push: 1,
            target: equation.target,
            pop: 1,
        })?;
    }
    Ok(channels)
}

/// Whether each node has a fraction.
fn are_known(fractions: &[Option<Fraction>]) -> bool
    ensures { IsTrue result ↔ AreKnown fractions.now }
{
    for fraction in fractions {
        if fraction.is_none() {
            return false;
        }
    }
    true
}
