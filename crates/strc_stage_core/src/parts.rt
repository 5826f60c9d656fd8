//! Links and hands of a ring as vectors: what is allowed, and single moves of parcels. None of
//! these takes memory but `make_room`.

ghost use Rattle.std.specs.Prelude.{◌≡◌, ℕ, ◌<◌, true, not, ◌&&◌, [], ◌∷◌, ◌++◌, length, set};
ghost use Rattle.std.specs.Prelude.{get_or, Some, None, slice_get};
ghost use Rattle.strc_stage_core.specs.Events.{before, is_free, is_loaded, is_holding};
ghost use Rattle.std.specs.Prelude.{OnOk};
ghost use Rattle.strc_stage_core.specs.Moves.{AreRoomy, Pulls, queues, rooms};

use std::alloc::AllocError;

/// The link before an actor: that of the actor before it, and before the first stage the last one.
pub fn link_before(stages: usize, actor: usize) -> usize
    ensures { result ≡ before stages actor }
{
    if actor == 0 { stages } else { actor - 1 }
}

/// Is this actor's hand there and empty?
pub fn hand_is_free<P>(hands: &Vec<Option<P>>, actor: usize) -> bool
    ensures { result ≡ is_free (slice_get hands.now.items actor) }
{
    match hands.get(actor) {
        Some(None) => true,
        _ => false,
    }
}

fn link_is_loaded<P>(links: &Vec<Vec<P>>, link: usize) -> bool
    ensures { result ≡ is_loaded (slice_get (queues links.now.items) link) }
{
    match links.get(link) {
        Some(parcels) => !parcels.is_empty(),
        None => false,
    }
}

/// May an actor take a parcel, where this tells whether it has finished?
pub fn can_take<P>(
    links: &Vec<Vec<P>>,
    hands: &Vec<Option<P>>,
    stages: usize,
    actor: usize,
    finished: bool,
) -> bool
    ensures { result ≡ (not finished && (is_free (slice_get hands.now.items actor)
        && is_loaded (slice_get (queues links.now.items) (before stages actor)))) }
{
    !finished && hand_is_free(hands, actor) && link_is_loaded(links, link_before(stages, actor))
}

/// May an actor give a parcel?
pub fn can_give<P>(hands: &Vec<Option<P>>, actor: usize) -> bool
    ensures { result ≡ is_holding (slice_get hands.now.items actor) }
{
    match hands.get(actor) {
        Some(Some(_)) => true,
        _ => false,
    }
}

/// Takes the first parcel from a link.
pub fn pull<P>(links: &mut Vec<Vec<P>>, from: usize) -> P
    requires { is_loaded (slice_get (queues links.old.items) from) ≡ true }
    ensures pulls { Pulls (queues links.old.items) from result (queues links.new.items) }
    ensures room { rooms links.new.items ≡ rooms links.old.items }
{
    links[from].remove(0)
}

/// Lays a parcel on a link that has room for it.
pub fn lay<P>(links: &mut Vec<Vec<P>>, to: usize, parcel: P)
    requires { length (get_or (queues links.old.items) to [])
        < get_or (rooms links.old.items) to 0 }
    ensures lays { queues links.new.items ≡ set (queues links.old.items) to
        (get_or (queues links.old.items) to [] ++ parcel ∷ []) }
    ensures room { rooms links.new.items ≡ rooms links.old.items }
{
    links[to].push_reserved(parcel);
}

/// Takes the parcel from an actor's hand.
pub fn release<P>(hands: &mut Vec<Option<P>>, actor: usize) -> P
    requires { is_holding (slice_get hands.old.items actor) ≡ true }
    ensures was { slice_get hands.old.items actor ≡ Some (Some result) }
    ensures now { hands.new.items ≡ set hands.old.items actor None }
{
    match hands[actor].take() {
        Some(parcel) => parcel,
        None => unreachable!(),
    }
}

/// Puts a parcel into an actor's empty hand.
pub fn hold<P: Drop>(hands: &mut Vec<Option<P>>, actor: usize, parcel: P)
    requires { is_free (slice_get hands.old.items actor) ≡ true }
    ensures { hands.new.items ≡ set hands.old.items actor (Some parcel) }
{
    hands[actor] = Some(parcel);
}

/// Gives each link room for so many parcels in all.
pub fn make_room<P>(links: &mut Vec<Vec<P>>, room: usize) -> Result<(), AllocError>
    ensures same { queues links.new.items ≡ queues links.old.items }
    ensures room { OnOk result (AreRoomy room (rooms links.new.items)) }
{
    for link in 0..links.len() {
        let missing = room.saturating_sub(links[link].len());
        links[link].reserve(missing)?;
    }
    Ok(())
}
