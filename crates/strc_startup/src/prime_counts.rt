// The least counts that prime channels, from each channel to the one before.

ghost use Rattle.std.specs.Prelude.{◌≡◌, ◌<◌, ℕ, length, All, IfOk, OnOk, Contains, Err};
ghost use Rattle.std.specs.Prelude.{Some, slice_get, true};
ghost use Rattle.strc_balance.specs.Balance.{IsWithinLimit};
ghost use Rattle.strc_balance.specs.NumberSets.{has_number, AllNumbers};
ghost use Rattle.strc_startup.specs.Raises.{Raises, IsUnbounded, IsBelow};
ghost use Rattle.strc_startup.specs.Startup as spec;
ghost use Rattle.strc_startup.specs.Waiting.{HasEnds, IsBounded, Pushes, Waits};
ghost use Rattle.strc_startup.specs.declared.error.StartupError.TheVariants as refused;

use crate::channel_rates::ChannelRates;
use crate::error::StartupError;
use crate::positions::grouping_of;
use crate::rates::targets_of;
use std::alloc::{AllocError, Global};
use strc_balance::COUNT_LIMIT;
use strc_balance::number_set::NumberSet;

/// The least counts from these on that prime the channels.
///
/// What a node needs raises the nodes before it at once as far as it asks; each raised node then
/// asks in turn. So no count is ever above one that primes. Sources come before their targets, but
/// in feedback loops: the highest node asks first, when what it feeds is done.
pub(crate) fn primed(
    alloc: Global,
    channels: &[ChannelRates],
    first: Vec<u32>,
) -> Result<Vec<u32>, StartupError>
    requires ends { All (HasEnds (length first.items)) channels.now }
    requires pushes { All Pushes channels.now }
    requires bounds { All IsBounded channels.now }
    requires within { IsWithinLimit first.items }
    ensures least { IfOk result (λ counts. spec.IsLeast first.items channels.now counts.items) }
    ensures within { IfOk result (λ counts. IsWithinLimit counts.items) }
    ensures unbounded { result ≡ Err refused.Unbounded → IsUnbounded channels.now first.items }
{
    let targets = targets_of(alloc, channels)?;
    let incoming = grouping_of(alloc, &targets, first.len())?;
    let mut counts = first;
    let mut waiting = all_nodes(alloc, counts.len())?;
    while let Some(node) = waiting.take_highest() {
        raise_sources(channels, incoming.at(node), &mut counts, &mut waiting)?;
    }
    Ok(counts)
}

/// So many nodes.
fn all_nodes(alloc: Global, size: usize) -> Result<NumberSet, AllocError>
    ensures all { IfOk result (λ nodes. (node : ℕ) → node < size → has_number nodes node ≡ true) }
    ensures numbers { IfOk result (AllNumbers (λ node. node < size)) }
{
    let mut nodes = NumberSet::with_capacity(alloc, size)?;
    for node in 0..size {
        nodes.add(node)?;
    }
    Ok(nodes)
}

/// Raises the sources of channels as far as their targets ask.
fn raise_sources(
    channels: &[ChannelRates],
    numbers: &[usize],
    counts: &mut [u32],
    waiting: &mut NumberSet,
) -> Result<(), StartupError>
    requires numbers { All (λ channel. channel < length channels.now) numbers.now }
    requires ends { All (HasEnds (length counts.old)) channels.now }
    requires pushes { All Pushes channels.now }
    requires bounds { All IsBounded channels.now }
    requires within { IsWithinLimit counts.old }
    requires nodes { AllNumbers (λ node. node < length counts.old) waiting.old }
    ensures raises { OnOk result (Raises channels.now counts.old waiting.old counts.new
        waiting.new) }
    ensures served { OnOk result ((channel : ℕ) (rates : ChannelRates)
        → Contains numbers.now channel
        → slice_get channels.now channel ≡ Some rates → Waits counts.new waiting.new rates) }
    ensures unbounded { result ≡ Err refused.Unbounded → IsUnbounded channels.now counts.old }
{
    for number in numbers {
        raise_source(channels, *number, counts, waiting)?;
    }
    Ok(())
}

/// Raises the source of a channel as far as its target asks.
fn raise_source(
    channels: &[ChannelRates],
    number: usize,
    counts: &mut [u32],
    waiting: &mut NumberSet,
) -> Result<(), StartupError>
    requires number { number < length channels.now }
    requires ends { All (HasEnds (length counts.old)) channels.now }
    requires pushes { All Pushes channels.now }
    requires bounds { All IsBounded channels.now }
    requires within { IsWithinLimit counts.old }
    requires nodes { AllNumbers (λ node. node < length counts.old) waiting.old }
    ensures raises { OnOk result (Raises channels.now counts.old waiting.old counts.new
        waiting.new) }
    ensures served { OnOk result ((rates : ChannelRates)
        → slice_get channels.now number ≡ Some rates → Waits counts.new waiting.new rates) }
    ensures unbounded { result ≡ Err refused.Unbounded → IsUnbounded channels.now counts.old }
{
    let rates = channels[number];
    let count = rates.least_firings(rates.need(counts[rates.target]));
    if count <= u128::from(counts[rates.source]) {
        return Ok(());
    }
    if count > COUNT_LIMIT {
        return Err(StartupError::Unbounded);
    }
    waiting.add(rates.source)?;
    counts[rates.source] = count as u32;
    Ok(())
}
