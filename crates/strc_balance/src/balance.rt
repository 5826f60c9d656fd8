// How often each node of a graph fires in a round.

ghost use Rattle.std.specs.Prelude.{◌≡◌, ℕ, List, Err, All, IfOk, length};
ghost use Rattle.strc_elab_graph.specs.Connections.{IsConnected};
ghost use Rattle.strc_elab_graph.specs.NodeView.{graph_view};
ghost use Rattle.strc_balance.specs.declared.error.BalanceError.TheVariants as refused;
ghost use Rattle.strc_balance.specs.Balance.{Balances, IsLeast, IsWithinLimit};
ghost use Rattle.strc_balance.specs.Rates.{IsRated, equations_of, size_of};
ghost use Rattle.strc_balance.specs.Verdicts.{IsVerdict, judged};

use crate::counts::Counts;
use crate::error::BalanceError;
use crate::rates::equations_of;
use crate::solution::solve;
use std::alloc::Global;
use strc_elab_graph::graph::Graph;

/// The repetition vector of a graph: the least counts at which its nodes fire in one round, so that
/// each channel ends with as many items as it began with.
///
/// They are the least positive solution of the balance equations of Lee and Messerschmitt (Static
/// Scheduling of Synchronous Data Flow Programs, 1987) for the rates of each filter's `work`: for
/// each channel, as many items pushed as popped. They are found as they propose: node 0 has the
/// fraction 1, and as long as a channel has one known end, the lowest such channel gives the other;
/// then the least whole multiples are taken. Each count is from 1 to 1,000,000.
///
/// Both ends of each channel need a rate of at least 1 by `work`, and all nodes must be connected
/// by channels, taken without direction. So no channel has an end at a scatter, a copy or a gather,
/// which have no rate by `work`.
///
/// `CountsTooLarge` comes where a fraction in lowest terms has a part above 1,000,000 or a count is
/// above 1,000,000, even where the counts balance no channel; then no counts within that limit
/// balance. `Inconsistent` comes where that isn't so and the counts don't balance each channel, and
/// names the lowest one that they don't; then no counts balance. `NoMemory` can come in place of
/// any answer.
pub fn balance(alloc: Global, graph: &Graph) -> Result<Counts, BalanceError>
    requires rates { All IsRated (equations_of (graph_view graph.now)) }
    requires connected { IsConnected (graph_view graph.now) }
    // The counts are the least that balance, and within the limit.
    ensures least { IfOk result (λ counts. IsLeast (size_of (graph_view graph.now))
        (equations_of (graph_view graph.now)) counts) }
    ensures within { IfOk result (λ counts. IsWithinLimit counts) }
    ensures nodes { IfOk result (λ counts. length counts ≡ length graph.now.nodes) }
    // Which answer it is, both ways, unless memory runs out.
    ensures verdict { IsVerdict (judged (size_of (graph_view graph.now))
        (equations_of (graph_view graph.now))) result }
    // No counts within the limit balance.
    ensures too_large { result ≡ Err refused.CountsTooLarge → (counts : List ℕ) →
        Balances (size_of (graph_view graph.now)) (equations_of (graph_view graph.now)) counts
        → ¬ IsWithinLimit counts }
    // No counts balance.
    ensures inconsistent { (channel : ℕ) → result ≡ Err (refused.Inconsistent channel)
        → (counts : List ℕ) →
        ¬ Balances (size_of (graph_view graph.now)) (equations_of (graph_view graph.now)) counts }
{
    let nodes = graph.nodes();
    let equations = equations_of(alloc, nodes, graph.channels())?;
    solve(alloc, &equations, nodes.len())
}
