// Sums over the buffers and the nodes of a plan.

ghost use Rattle.std.specs.Prelude.{◌≡◌, ◌<◌, ◌+◌, ℕ, IfOk, length, slice_index_or};
ghost use Rattle.strc_cli_output.specs.Totals as spec;

use std::alloc::{AllocError, Global};
use strc_elab_graph::graph::{Channel, Graph};

/// How many items fit in the buffers of the channels that each node gives items to: sums past 64
/// bits stay at the greatest number.
pub(crate) fn sizes_behind(
    alloc: Global,
    graph: &Graph,
    sizes: &[u32],
) -> Result<Vec<u64>, AllocError>
    requires { length sizes.now ≡ length graph.now.channels }
    ensures { IfOk result (λ sums. sums.items
        ≡ spec.sizes_behind (length graph.now.nodes) graph.now.channels sizes.now) }
{
    let mut sums = Vec::from_elem(alloc, 0, graph.nodes().len())?;
    add_sizes(&mut sums, graph.channels(), sizes);
    Ok(sums)
}

/// Adds the sizes of the buffers of channels to the sums of their sources.
fn add_sizes(sums: &mut [u64], channels: &[Channel], sizes: &[u32])
    requires { length sizes.now ≡ length channels.now }
    ensures same { length sums.new ≡ length sums.old }
    ensures each { (node : ℕ) → node < length sums.old → slice_index_or sums.new node 0
        ≡ spec.held (slice_index_or sums.old node 0
        + spec.size_behind node channels.now sizes.now) }
{
    for number in 0..channels.len() {
        add_size(sums, &channels[number], sizes[number]);
    }
}

/// Adds the size of a channel's buffer to the sum of its source.
fn add_size(sums: &mut [u64], channel: &Channel, size: u32)
    ensures { sums.new ≡ spec.with_size sums.old channel.now size }
{
    let source = channel.source.node as usize;
    if source < sums.len() {
        sums[source] = sums[source].saturating_add(u64::from(size));
    }
}

/// The sum of numbers; one past 64 bits stays at the greatest number.
pub(crate) fn sum_of(numbers: &[u64]) -> u64
    ensures { result ≡ spec.sum_of numbers.now }
{
    let mut sum: u64 = 0;
    for number in numbers {
        sum = sum.saturating_add(*number);
    }
    sum
}
