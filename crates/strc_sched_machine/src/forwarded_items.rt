// Items that a firing has pushed, in hand for the next one's window: no ring holds them in between.

ghost use Rattle.std.specs.Prelude.{◌≡◌, ◌<◌, ◌≤◌, [], None, IfErr, IfSome};
ghost use Rattle.std.specs.Prelude.{Err, length, take, true};
ghost use Rattle.circular_buffer.specs.Buffer.{buffer};
ghost use Rattle.strc_work_meaning.specs.Filters as filters;
ghost use Rattle.strc_work_meaning.specs.Filters.{body_prints, filter_of};
ghost use Rattle.strc_sched_laws.specs.Rings as spec;
ghost use Rattle.strc_sched_laws.specs.Steps as steps;
ghost use Rattle.strc_elab_graph.specs.Rates as rates;
ghost use Rattle.strc_sched_machine.specs.Actors.{IsFilterActor};
ghost use Rattle.strc_sched_rings.specs.Answers.{HasStepped};
ghost use Rattle.strc_sched_machine.specs.Handing.{HasSteppedByHand, IsAllAt, IsHeld, with_held};
ghost use Rattle.strc_sched_rings.specs.Words.{WantsWordOfStep};

use crate::batches::Batch;
use crate::filter::{FilterActor, Taking};
use strc_elab_graph::rates::body_at;
use strc_sched_rings::ring::{Ring, give_to};
use strc_work::firing::Fire;
use strc_work_code::code::Code;
use strc_work_meaning::fault::Halt;
use strc_work_meaning::word::Word;

/// Items that are to join the ring at a port: the first so many of those on their way.
#[derive(Clone, Copy)]
pub(crate) struct Held {
    pub(crate) port: Option<usize>,
    pub(crate) count: usize,
}

/// An empty hand.
#[inline(always)]
pub(crate) fn nothing_held() -> Held
    ensures port { result.port ≡ None }
    ensures count { result.count ≡ 0 }
{
    Held {
        port: None,
        count: 0,
    }
}

/// What is in hand joins its ring.
#[inline(always)]
pub(crate) fn put_down(rings: &mut [Ring], items: &[i32], held: Held)
    requires held { IsHeld items.now rings.old held }
    ensures { rings.new ≡ with_held held items.now rings.old }
{
    if held.port.is_some() {
        give_apart(rings, held.port, &items[..held.count]);
    }
}

/// Items join the ring at a port. Not inlined, so that what moves items at each firing is.
#[inline(never)]
fn give_apart(rings: &mut [Ring], port: Option<usize>, items: &[i32])
    requires port { IfSome port (λ number. number < length rings.old) }
    ensures { rings.new ≡ spec.given port items.now rings.old }
{
    give_to(rings, port, items);
}

/// Takes the items at a port in hand, where they are so many, and nothing else is in hand. Whether
/// just so many items are to be found there, and all in hand; if not, all stays as it was.
#[inline(always)]
pub(crate) fn take_up(
    rings: &mut [Ring],
    items: &mut [i32],
    port: Option<usize>,
    count: usize,
    held: &mut Held,
) -> bool
    requires port { IfSome port (λ number. number < length rings.old) }
    requires held { IsHeld items.old rings.old held.old }
    ensures rings { length rings.new ≡ length rings.old }
    ensures items { length items.new ≡ length items.old }
    ensures held { IsHeld items.new rings.new held.new }
    ensures same { with_held held.new items.new rings.new
        ≡ with_held held.old items.old rings.old }
    ensures all { result ≡ true → IsAllAt port rings.new held.new }
    ensures count { result ≡ true → held.new.count ≡ count }
{
    let Some(ring) = port else {
        return false;
    };
    match held.port {
        Some(own) => {
            own == ring
                && held.count == count
                && rings[ring].is_empty()
                && count <= rings[ring].capacity()
        }
        None => {
            if rings[ring].len() != count || count > items.len() {
                return false;
            }
            pick_up(&mut rings[ring], items, count);
            *held = Held { port, count };
            true
        }
    }
}

/// All items of a ring leave it, for the places of as many.
#[inline(always)]
fn pick_up(ring: &mut Ring, items: &mut [i32], count: usize)
    requires all { count ≡ length ring.old.items }
    requires room { count ≤ length items.old }
    ensures items { length items.new ≡ length items.old }
    ensures taken { take count items.new ≡ ring.old.items }
    ensures left { ring.new ≡ buffer [] ring.old.capacity }
{
    let (front, back) = ring.as_slices();
    let (places, _rest) = items.split_at_mut(count);
    let (first, second) = places.split_at_mut(front.len());
    first.copy_from_slice(front);
    second.copy_from_slice(back);
    ring.clear();
}

/// Items for a port are in hand; where they are too many, they join its ring at once.
#[inline(always)]
fn hold(rings: &mut [Ring], items: &mut [i32], port: Option<usize>, pushes: &[i32]) -> Held
    requires port { IfSome port (λ number. number < length rings.old) }
    ensures rings { length rings.new ≡ length rings.old }
    ensures items { length items.new ≡ length items.old }
    ensures held { IsHeld items.new rings.new result }
    ensures given { with_held result items.new rings.new ≡ spec.given port pushes.now rings.old }
{
    let count = pushes.len();
    if count > items.len() {
        give_apart(rings, port, pushes);
        return nothing_held();
    }
    if count == 1 {
        items[0] = pushes[0];
    } else {
        let (first, _rest) = items.split_at_mut(count);
        first.copy_from_slice(pushes);
    }
    Held { port, count }
}

/// One firing of a batch's filter, by its number, where what it takes can be in hand: whether it
/// found its window, and then what it pushes is in hand. Where it can't be, nothing fires.
#[inline(always)]
pub(crate) fn fire_by_hand(
    code: &Code,
    firing: u64,
    actor: &mut FilterActor,
    batch: &Batch,
    rings: &mut [Ring],
    items: &mut [i32],
    held: &mut Held,
    words: &mut Vec<Word>,
) -> Result<Option<bool>, Halt>
    requires actor { IsFilterActor (filter_of code.now) actor.old }
    requires input { IfSome batch.now.input (λ number. number < length rings.old) }
    requires output { IfSome batch.now.output (λ number. number < length rings.old) }
    requires held { IsHeld items.old rings.old held.old }
    ensures actor { IsFilterActor (filter_of code.now) actor.new }
    ensures rings { length rings.new ≡ length rings.old }
    ensures items { length items.new ≡ length items.old }
    ensures held { IsHeld items.new rings.new held.new }
    ensures step { HasSteppedByHand (steps.filter_step (filter_of code.now) firing
        actor.old.state.fields batch.now.input batch.now.output
        (with_held held.old items.old rings.old)) result actor.old.state.fields
        actor.new.state.fields (with_held held.old items.old rings.old)
        (with_held held.new items.new rings.new) words.old.items words.new.items }
    ensures memory { IfErr result (λ halt. WantsWordOfStep
        (body_prints (rates.body_at firing) (filter_of code.now))
        (steps.filter_step (filter_of code.now) firing actor.old.state.fields batch.now.input
        batch.now.output (with_held held.old items.old rings.old)) (Err halt)) }
{
    let pops = taking_at(actor, firing).pops as usize;
    if !take_up(rings, items, batch.input, pops, held) {
        return Ok(None);
    }
    match fire_held(code, firing, actor, batch, rings, items, held, words) {
        Ok(found) => Ok(Some(found)),
        Err(halt) => Err(halt),
    }
}

/// One firing of a batch's filter, by its number, on what is in hand, which is all that it takes.
/// Then what it pushes is in hand. Whether it found its window; if not, all stays as it was.
#[inline]
fn fire_held(
    code: &Code,
    firing: u64,
    actor: &mut FilterActor,
    batch: &Batch,
    rings: &mut [Ring],
    items: &mut [i32],
    held: &mut Held,
    words: &mut Vec<Word>,
) -> Result<bool, Halt>
    requires actor { IsFilterActor (filter_of code.now) actor.old }
    requires output { IfSome batch.now.output (λ number. number < length rings.old) }
    requires held { IsHeld items.old rings.old held.old }
    requires all { IsAllAt batch.now.input rings.old held.old }
    requires takes { held.old.count ≡ rates.filter_pops (filter_of code.now) firing }
    ensures actor { IsFilterActor (filter_of code.now) actor.new }
    ensures rings { length rings.new ≡ length rings.old }
    ensures items { length items.new ≡ length items.old }
    ensures held { IsHeld items.new rings.new held.new }
    ensures step { HasStepped (steps.filter_step (filter_of code.now) firing
        actor.old.state.fields batch.now.input batch.now.output
        (with_held held.old items.old rings.old)) result actor.old.state.fields
        actor.new.state.fields (with_held held.old items.old rings.old)
        (with_held held.new items.new rings.new) words.old.items words.new.items }
    ensures memory { WantsWordOfStep (body_prints (rates.body_at firing) (filter_of code.now))
        (steps.filter_step (filter_of code.now) firing actor.old.state.fields batch.now.input
        batch.now.output (with_held held.old items.old rings.old)) result }
{
    if held.count < taking_at(actor, firing).window as usize {
        return Ok(false);
    }
    let window: &[i32] = &items[..held.count];
    match code.fire(
        body_at(firing),
        &mut actor.state,
        &mut actor.frame,
        &window,
        words,
    ) {
        Ok(()) => {}
        Err(halt) => return Err(halt),
    }
    *held = hold(rings, items, batch.output, actor.frame.pushes());
    Ok(true)
}

/// What a firing takes, by its number.
#[inline(always)]
fn taking_at(actor: &FilterActor, firing: u64) -> Taking
    ensures { (filter : filters.Filter) → IsFilterActor filter actor.now
        → (result.window ≡ steps.filter_looks filter firing)
        × (result.pops ≡ rates.filter_pops filter firing) }
{
    if firing == 0 {
        actor.first
    } else {
        actor.later
    }
}
