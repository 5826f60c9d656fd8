// What a node keeps, given over from one machine to another.

ghost use Rattle.std.specs.Prelude.{◌≡◌, slice_get};
ghost use Rattle.strc_sched_laws.specs.Machine.{CircuitView};
ghost use Rattle.strc_sched_machine.specs.Keeping.{HasPlace, kept_at, with_kept};
ghost use Rattle.strc_sched_machine.specs.Keeping.{KeepsActor, KeepsButLanes};
ghost use Rattle.strc_sched_machine.specs.Running.{IsMachine, machine_view};

use crate::actor::Actor;
use crate::filter::FilterActor;
use crate::machine::Machine;
use std::mem;

impl Machine {
    /// All that a machine has of a node, and that another machine has of a node with the same code,
    /// changes places, but for the room for firings in lanes.
    pub fn swap_kept(&mut self, node: usize, other: &mut Machine, place: usize)
        requires node { HasPlace (machine_view self.old) node }
        requires place { HasPlace (machine_view other.old) place }
        ensures own { machine_view self.new ≡ with_kept node
            (kept_at (machine_view other.old) place) (machine_view self.old) }
        ensures other { machine_view other.new ≡ with_kept place
            (kept_at (machine_view self.old) node) (machine_view other.old) }
        ensures machines { (circuit beside : CircuitView)
            → slice_get circuit.codes node ≡ slice_get beside.codes place
            → IsMachine circuit self.old → IsMachine beside other.old
            → IsMachine circuit self.new × IsMachine beside other.new }
    {
        swap_actors(&mut self.actors[node], &mut other.actors[place]);
        mem::swap(&mut self.fired[node], &mut other.fired[place]);
        mem::swap(&mut self.words[node], &mut other.words[place]);
    }
}

/// What two nodes keep changes places, but for the room for firings in lanes: that stays where the
/// rings are that it was made for.
fn swap_actors(own: &mut Actor, other: &mut Actor)
    ensures own { KeepsActor other.old own.new }
    ensures other { KeepsActor own.old other.new }
{
    mem::swap(own, other);
    swap_rooms(own, other);
}

/// The rooms for firings in lanes of two filters change places.
fn swap_rooms(own: &mut Actor, other: &mut Actor)
    ensures own { KeepsActor own.old own.new }
    ensures other { KeepsActor other.old other.new }
{
    if let Actor::Filter(own) = own {
        if let Actor::Filter(other) = other {
            swap_lanes(own, other);
        }
    }
}

/// The same, with what the tries to fire in lanes came to.
fn swap_lanes(own: &mut FilterActor, other: &mut FilterActor)
    ensures own { KeepsButLanes own.old own.new }
    ensures other { KeepsButLanes other.old other.new }
{
    mem::swap(&mut own.lanes, &mut other.lanes);
    mem::swap(&mut own.parted, &mut other.parted);
    mem::swap(&mut own.again, &mut other.again);
}
