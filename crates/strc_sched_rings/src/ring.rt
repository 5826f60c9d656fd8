// The rings of a graph's channels: a queue of bounded size each.

ghost use Rattle.std.specs.Prelude.{◌≡◌, ◌<◌, ◌≤◌, ◌++◌, take, drop, length, map, IfSome, IfOk};
ghost use Rattle.strc_elab_graph.specs.NodeView.{channel_view};
ghost use Rattle.strc_sched_laws.specs.Rings as spec;
ghost use Rattle.strc_sched_laws.specs.Rings.{AreFirst, items_at};

use crate::item_moves::{extend, move_across, rotate, shorten};
use circular_buffer::HeapCircularBuffer;
use std::alloc::{AllocError, Global};
use strc_elab_graph::graph::Channel;
use strc_work_instructions::window::RingWindow;

/// The items on a channel.
pub type Ring = HeapCircularBuffer<i32>;

/// A ring for each channel, of these sizes, that begins with the channel's enqueued items.
pub fn first_rings(
    alloc: Global,
    channels: &[Channel],
    sizes: &[u32],
) -> Result<Vec<Ring>, AllocError>
    ensures { IfOk result (λ rings. AreFirst (map channel_view channels.now) sizes.now
        rings.items) }
{
    let mut rings = Vec::with_capacity(alloc, channels.len())?;
    for number in 0..channels.len() {
        let size = if number < sizes.len() {
            sizes[number]
        } else {
            0
        };
        rings.push(first_ring(alloc, &channels[number], size)?)?;
    }
    Ok(rings)
}

/// The ring of a channel before any firing.
fn first_ring(alloc: Global, channel: &Channel, size: u32) -> Result<Ring, AllocError>
    ensures { IfOk result (λ ring. ring ≡ spec.first_ring (channel_view channel.now) size) }
{
    let mut ring = HeapCircularBuffer::with_capacity(alloc, size as usize)?;
    ring.fill_from_slice(&channel.enqueued);
    Ok(ring)
}

/// The items at a port; none where there is no ring.
#[inline(always)]
pub fn window_at<'a>(rings: &'a [Ring], port: Option<usize>) -> RingWindow<'a>
    requires port { IfSome port (λ number. number < length rings.now) }
    ensures { result.front.now ++ result.back.now ≡ items_at rings.now port }
{
    match port {
        Some(number) => {
            let (front, back) = rings[number].as_slices();
            RingWindow { front, back }
        }
        None => RingWindow {
            front: &[],
            back: &[],
        },
    }
}

/// How many items are at a port.
#[inline(always)]
pub fn count_at(rings: &[Ring], port: Option<usize>) -> usize
    requires port { IfSome port (λ number. number < length rings.now) }
    ensures { result ≡ length (items_at rings.now port) }
{
    match port {
        Some(number) => rings[number].len(),
        None => 0,
    }
}

/// So many items leave the ring at a port.
#[inline(always)]
pub fn take_from(rings: &mut [Ring], port: Option<usize>, count: usize)
    requires port { IfSome port (λ number. number < length rings.old) }
    ensures { rings.new ≡ spec.taken port count rings.old }
{
    if let Some(number) = port {
        shorten(&mut rings[number], count);
    }
}

/// Items join the ring at a port.
#[inline(always)]
pub fn give_to(rings: &mut [Ring], port: Option<usize>, items: &[i32])
    requires port { IfSome port (λ number. number < length rings.old) }
    ensures { rings.new ≡ spec.given port items.now rings.old }
{
    if let Some(number) = port {
        extend(&mut rings[number], items);
    }
}

/// The first of some items, so many or all.
pub fn first_of(items: &[i32], count: usize) -> &[i32]
    ensures { result.now ≡ take count items.now }
{
    &items[..items.len().min(count)]
}

/// Some items without the first of them, so many or all.
pub fn rest_of(items: &[i32], count: usize) -> &[i32]
    ensures { result.now ≡ drop count items.now }
{
    &items[items.len().min(count)..]
}

/// The first items at a port, as many as there are places for them.
pub fn copy_front(rings: &[Ring], port: Option<usize>, items: &mut [i32])
    requires port { IfSome port (λ number. number < length rings.now) }
    requires enough { length items.old ≤ length (items_at rings.now port) }
    ensures { items.new ≡ take (length items.old) (items_at rings.now port) }
{
    let RingWindow { front, back } = window_at(rings, port);
    let head = first_of(front, items.len());
    let tail = first_of(back, items.len() - head.len());
    let (first, rest) = items.split_at_mut(head.len());
    first.copy_from_slice(head);
    rest.copy_from_slice(tail);
}

/// So many items go from the ring at one port to that at another.
#[inline(always)]
pub fn move_items(rings: &mut [Ring], from: Option<usize>, to: Option<usize>, count: usize)
    requires from { IfSome from (λ number. number < length rings.old) }
    requires to { IfSome to (λ number. number < length rings.old) }
    ensures { rings.new ≡ spec.moved from to count rings.old }
{
    let Some(source) = from else {
        return;
    };
    let Some(target) = to else {
        shorten(&mut rings[source], count);
        return;
    };
    if source == target {
        rotate(&mut rings[source], count);
    } else {
        move_across(rings, source, target, count);
    }
}
