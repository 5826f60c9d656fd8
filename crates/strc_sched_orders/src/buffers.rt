// The buffers that orders of start-up and of a round need.

ghost use Rattle.std.specs.Prelude.{◌≡◌, ℕ, ◌+◌, ◌≤◌, All, IfOk, IfErr, IfSome, IfNone, map};
ghost use Rattle.std.specs.Prelude.{length, replicate};
ghost use Rattle.strc_balance.specs.Balance.{count_at};
ghost use Rattle.strc_sched_orders.specs.Buffers.{size_limit};
ghost use Rattle.strc_sched_orders.specs.Firings as spec;
ghost use Rattle.strc_sched_orders.specs.Greedy.{firings_of};
ghost use Rattle.strc_sched_orders.specs.Network.{size_of};
ghost use Rattle.strc_sched_orders.specs.Order.{firing_count};
ghost use Rattle.strc_sched_orders.specs.Peaks.{HasNodes, IsFirstPast};
ghost use Rattle.strc_sched_orders.specs.Progress.{AreCounts, count_bound};
ghost use Rattle.strc_sched_orders.specs.Schedules.{AreBuffers, HasNoBuffers, IsAfterStartup};

use crate::error::ScheduleError;
use crate::limit::SIZE_LIMIT;
use crate::network::Network;
use crate::peaks::{after_units, fill};
use crate::unit::Unit;
use std::alloc::{AllocError, Global};

/// For each channel the greatest and the last number of items of start-up, and the size of its
/// buffer.
#[derive(Drop)]
pub(crate) struct Buffers {
    pub(crate) greatest: Vec<u32>,
    pub(crate) last: Vec<u32>,
    pub(crate) sizes: Vec<u32>,
}

/// The same numbers, which can be past the limit of sizes.
struct Peaks {
    greatest: Vec<u128>,
    last: Vec<u128>,
    sizes: Vec<u128>,
}

impl Drop for Peaks {
    fn drop(self) {
        let Peaks {
            greatest: _,
            last: _,
            sizes: _,
        } = self;
    }
}

/// The buffers that these orders need.
pub(crate) fn buffers_of(
    alloc: Global,
    network: &Network,
    startup: &[Unit],
    round: &[Unit],
) -> Result<Buffers, ScheduleError>
    requires startup { All (HasNodes (size_of network.now)) startup.now }
    requires round { All (HasNodes (size_of network.now)) round.now }
    requires few { (node : ℕ) → firing_count (firings_of startup.now) node
        + firing_count (firings_of round.now) node ≤ count_bound }
    ensures buffers { IfOk result (λ buffers. AreBuffers network.now.channels startup.now round.now
        buffers.greatest.items buffers.last.items buffers.sizes.items) }
    ensures within { IfOk result (λ buffers. All (λ size. size ≤ size_limit) buffers.sizes.items) }
    ensures none { IfErr result (HasNoBuffers network.now.channels startup.now round.now) }
{
    let peaks = peaks_of(alloc, network, startup, round)?;
    if let Some(channel) = first_past(&peaks.sizes) {
        return Err(ScheduleError::BufferLimit { channel });
    }
    Ok(narrowed_peaks(alloc, &peaks)?)
}

/// The numbers of items while these orders fire.
fn peaks_of(
    alloc: Global,
    network: &Network,
    startup: &[Unit],
    round: &[Unit],
) -> Result<Peaks, AllocError>
    requires startup { All (HasNodes (size_of network.now)) startup.now }
    requires round { All (HasNodes (size_of network.now)) round.now }
    requires few { (node : ℕ) → firing_count (firings_of startup.now) node
        + firing_count (firings_of round.now) node ≤ count_bound }
    ensures { IfOk result (λ peaks. AreBuffers network.now.channels startup.now round.now
        peaks.greatest.items peaks.last.items peaks.sizes.items) }
{
    let (counts, greatest) = after_startup(alloc, network, startup)?;
    let last = fills(alloc, network, &counts)?;
    let copy = copy_of(alloc, &greatest)?;
    let Some((_counts, sizes)) = after_units(network, round, counts, copy) else {
        unreachable!()
    };
    Ok(Peaks {
        greatest,
        last,
        sizes,
    })
}

/// How often nodes have fired after an order of start-up, and the greatest numbers of items then.
fn after_startup(
    alloc: Global,
    network: &Network,
    startup: &[Unit],
) -> Result<(Vec<u128>, Vec<u128>), AllocError>
    requires startup { All (HasNodes (size_of network.now)) startup.now }
    requires few { (node : ℕ) → firing_count (firings_of startup.now) node ≤ count_bound }
    ensures { IfOk result (λ state. IsAfterStartup network.now startup.now state.0.items
        state.1.items) }
{
    let counts = zeros(alloc, network.size())?;
    let enqueued = fills(alloc, network, &counts)?;
    let Some(later) = after_units(network, startup, counts, enqueued) else {
        unreachable!()
    };
    Ok(later)
}

/// So many zeros.
pub(crate) fn zeros(alloc: Global, size: usize) -> Result<Vec<u128>, AllocError>
    ensures { IfOk result (λ zeros. zeros.items ≡ replicate size 0) }
{
    let mut zeros = Vec::new(alloc);
    zeros.resize(size, 0)?;
    Ok(zeros)
}

/// How many items are on each channel.
fn fills(alloc: Global, network: &Network, counts: &[u128]) -> Result<Vec<u128>, AllocError>
    requires each { length counts.now ≡ size_of network.now }
    requires few { AreCounts counts.now }
    ensures { IfOk result (λ fills. fills.items
        ≡ map (λ rates. spec.fill rates (count_at counts.now)) network.now.channels) }
{
    let channels = network.channels();
    let mut fills = Vec::with_capacity(alloc, channels.len())?;
    for rates in channels {
        let Some(items) = fill(rates, counts) else {
            unreachable!()
        };
        fills.push(items)?;
    }
    Ok(fills)
}

/// The same numbers.
fn copy_of<T: Copy + Drop>(alloc: Global, numbers: &[T]) -> Result<Vec<T>, AllocError>
    ensures { IfOk result (λ copy. copy.items ≡ numbers.now) }
{
    let mut copy = Vec::new(alloc);
    copy.extend_from_slice(numbers)?;
    Ok(copy)
}

/// The first number past the limit of sizes.
pub(crate) fn first_past(sizes: &[u128]) -> Option<usize>
    ensures past { IfSome result (IsFirstPast sizes.now) }
    ensures within { IfNone result (All (λ size. size ≤ size_limit) sizes.now) }
{
    for channel in 0..sizes.len() {
        if sizes[channel] > SIZE_LIMIT {
            return Some(channel);
        }
    }
    None
}

/// Numbers that are not past the limit of sizes.
fn narrowed_peaks(alloc: Global, peaks: &Peaks) -> Result<Buffers, AllocError>
    requires greatest { All (λ number. number ≤ size_limit) peaks.now.greatest.items }
    requires last { All (λ number. number ≤ size_limit) peaks.now.last.items }
    requires sizes { All (λ number. number ≤ size_limit) peaks.now.sizes.items }
    ensures greatest { IfOk result (λ buffers. buffers.greatest.items
        ≡ peaks.now.greatest.items) }
    ensures last { IfOk result (λ buffers. buffers.last.items ≡ peaks.now.last.items) }
    ensures sizes { IfOk result (λ buffers. buffers.sizes.items ≡ peaks.now.sizes.items) }
{
    Ok(Buffers {
        greatest: narrowed(alloc, &peaks.greatest)?,
        last: narrowed(alloc, &peaks.last)?,
        sizes: narrowed(alloc, &peaks.sizes)?,
    })
}

/// Numbers of one list that are not past the limit of sizes, in 32 bits.
pub(crate) fn narrowed(alloc: Global, numbers: &[u128]) -> Result<Vec<u32>, AllocError>
    requires { All (λ number. number ≤ size_limit) numbers.now }
    ensures { IfOk result (λ narrowed. narrowed.items ≡ numbers.now) }
{
    let mut narrowed = Vec::with_capacity(alloc, numbers.len())?;
    for number in numbers {
        narrowed.push(*number as u32)?;
    }
    Ok(narrowed)
}
