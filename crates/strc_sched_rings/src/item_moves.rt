// Items join a ring, leave it, or go from a ring to another one.

ghost use Rattle.std.specs.Prelude.{◌≡◌, ◌≢◌, ◌<◌, take, length, Some};
ghost use Rattle.strc_sched_laws.specs.Rings as spec;

use crate::ring::{Ring, first_of};

/// So many items leave a ring.
#[inline(always)]
pub fn shorten(ring: &mut Ring, count: usize)
    ensures { ring.new ≡ spec.shortened count ring.old }
{
    let left = ring.len().saturating_sub(count);
    ring.truncate_front(left);
}

/// Items join a ring, as many as there is room for. One or two, as most firings push, cost no copy
/// of a slice.
#[inline(always)]
pub fn extend(ring: &mut Ring, items: &[i32])
    ensures { ring.new ≡ spec.extended items.now ring.old }
{
    if items.len() == 1 {
        let _refused = ring.try_push_back(items[0]);
    } else if items.len() == 2 {
        let _first = ring.try_push_back(items[0]);
        let _second = ring.try_push_back(items[1]);
    } else {
        ring.fill_from_slice(items);
    }
}

/// The first items of a ring, so many or all, go to its end.
#[inline(never)]
pub fn rotate(ring: &mut Ring, count: usize)
    ensures { ring.new ≡ spec.extended (take count ring.old.items) (spec.shortened count
        ring.old) }
{
    for _turn in 0..count.min(ring.len()) {
        rotate_one(ring);
    }
}

/// The first item of a ring goes to its end.
fn rotate_one(ring: &mut Ring)
    ensures { ring.new ≡ spec.extended (take 1 ring.old.items) (spec.shortened 1 ring.old) }
{
    if let Some(item) = ring.pop_front() {
        let _refused = ring.try_push_back(item);
    }
}

/// So many items go from a ring to another one.
#[inline(always)]
pub fn move_across(rings: &mut [Ring], source: usize, target: usize, count: usize)
    requires source { source < length rings.old }
    requires target { target < length rings.old }
    requires apart { source ≢ target }
    ensures { rings.new ≡ spec.moved (Some source) (Some target) count rings.old }
{
    if source < target {
        let (low, high) = rings.split_at_mut(target);
        pour(&mut low[source], &mut high[0], count);
    } else {
        let (low, high) = rings.split_at_mut(source);
        pour(&mut high[0], &mut low[target], count);
    }
}

/// The first items of a ring, so many or all, join another one.
#[inline(always)]
fn pour(source: &mut Ring, target: &mut Ring, count: usize)
    ensures source { source.new ≡ spec.shortened count source.old }
    ensures target { target.new ≡ spec.extended (take count source.old.items) target.old }
{
    if count == 1 {
        pour_one(source, target);
    } else if count == 2 {
        pour_two(source, target);
    } else {
        pour_many(source, target, count);
    }
}

/// The first item of a ring joins another one.
#[inline(always)]
fn pour_one(source: &mut Ring, target: &mut Ring)
    ensures source { source.new ≡ spec.shortened 1 source.old }
    ensures target { target.new ≡ spec.extended (take 1 source.old.items) target.old }
{
    if let Some(item) = source.pop_front() {
        let _refused = target.try_push_back(item);
    }
}

/// The first two items of a ring join another one.
#[inline(always)]
fn pour_two(source: &mut Ring, target: &mut Ring)
    ensures source { source.new ≡ spec.shortened 2 source.old }
    ensures target { target.new ≡ spec.extended (take 2 source.old.items) target.old }
{
    pour_one(source, target);
    pour_one(source, target);
}

/// The first items of a ring join another one, piece by piece as the ring has them.
#[inline(never)]
fn pour_many(source: &mut Ring, target: &mut Ring, count: usize)
    ensures source { source.new ≡ spec.shortened count source.old }
    ensures target { target.new ≡ spec.extended (take count source.old.items) target.old }
{
    let (front, back) = source.as_slices();
    extend(target, first_of(front, count));
    if front.len() < count {
        extend(target, first_of(back, count - front.len()));
    }
    shorten(source, count);
}
