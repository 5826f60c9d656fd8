// How often each node of a graph fires before the first round.

ghost use Rattle.std.specs.Prelude.{◌≡◌, ℕ, List, Err, All, IfOk, length};
ghost use Rattle.strc_elab_graph.specs.NodeView.{graph_view};
ghost use Rattle.strc_balance.specs.Balance.{IsWithinLimit};
ghost use Rattle.strc_balance.specs.Rates.{IsRated, equations_of};
ghost use Rattle.strc_startup.specs.Rates as spec;
ghost use Rattle.strc_startup.specs.Startup.{IsPrimed, IsLeast};
ghost use Rattle.strc_startup.specs.declared.error.StartupError.TheVariants as refused;

use crate::error::StartupError;
use crate::prime_counts::primed;
use crate::rates::{channel_rates, first_counts};
use std::alloc::Global;
use strc_balance::counts::Counts;
use strc_elab_graph::graph::Graph;

/// The least counts at which the nodes of a graph fire before the first round, so that in each
/// round each node finds what it looks at.
///
/// A node that looks at more items than it pops needs the rest beforehand, a prework is the first
/// firing of its node, and items that are enqueued on a channel have come already (StreamIt
/// specification 2.1, "Filters" and "Feedback loops"). Each count is from 0 to 1,000,000; the
/// counts of a round play no part in them.
///
/// Both ends of each channel need a rate of at least 1 by `work`. `Unbounded` comes only where no
/// counts within the limit prime the graph, as those of a feedback loop with too few items.
/// `NoMemory` can come in place of any answer.
pub fn startup(alloc: Global, graph: &Graph, _round: &Counts) -> Result<Counts, StartupError>
    requires { All IsRated (equations_of (graph_view graph.now)) }
    ensures least { IfOk result (λ counts. IsLeast (spec.first_counts (graph_view graph.now))
        (spec.rates_of (graph_view graph.now)) counts) }
    ensures within { IfOk result (λ counts. IsWithinLimit counts) }
    ensures nodes { IfOk result (λ counts. length counts ≡ length graph.now.nodes) }
    ensures unbounded { result ≡ Err refused.Unbounded → (counts : List ℕ)
        → IsPrimed (spec.first_counts (graph_view graph.now)) (spec.rates_of (graph_view graph.now))
        counts → ¬ IsWithinLimit counts }
{
    let channels = channel_rates(alloc, graph)?;
    let first = first_counts(alloc, graph.nodes())?;
    Ok(Counts::new(primed(alloc, &channels, first)?))
}
