// The lines of a plan with what is told of each node.

ghost use Rattle.std.specs.Prelude.{◌≡◌};
ghost use Rattle.strc_cli.specs.Weighing as spec;

use crate::answer::Answer;
use std::alloc::Global;
use strc_cli_output::node_order::NodeOrder;
use strc_cli_output::stop::Stop;
use strc_cli_output::works::long_plan_text;
use strc_cli_words::line::SortKey;
use strc_elab_stream::stream::Stream;
use strc_run::compile::Plan;
use strc_run::refusal::Refusal;
use strc_run_refusal::placed_refusal::PlacedRefusal;

/// The lines of the plan of a stream, with the path, the work and the buffers of each node, in an
/// order.
pub(crate) fn weighed(alloc: Global, stream: &Stream, plan: &Plan, sort: Option<SortKey>) -> Answer
    ensures { spec.IsWeighed stream.now plan.now sort result }
{
    match long_plan_text(alloc, plan, stream, order_of(sort)) {
        Ok(lines) => Answer::Weighed(lines),
        Err(_) => Answer::Stopped(Stop::Refused(PlacedRefusal::from(Refusal::NoMemory))),
    }
}

/// The order of nodes that is asked for.
fn order_of(sort: Option<SortKey>) -> NodeOrder
    ensures { result ≡ spec.order_of sort }
{
    match sort {
        None => NodeOrder::Number,
        Some(SortKey::Work) => NodeOrder::Work,
        Some(SortKey::Size) => NodeOrder::Size,
    }
}
