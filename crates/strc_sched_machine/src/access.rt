// What the owner of a machine puts on its channels, sees there, and exchanges with it.

ghost use Rattle.std.specs.Prelude.{◌≡◌, ◌<◌, ◌++◌, [], Some, length, slice_set};
ghost use Rattle.circular_buffer.specs.Buffer.{buffer};
ghost use Rattle.strc_sched_laws.specs.Machine.{CircuitView, words_at};
ghost use Rattle.strc_sched_laws.specs.Rings.{given, items_at, ring_at};
ghost use Rattle.strc_sched_machine.specs.Running.{IsMachine, machine_view, with_rings, with_words};

use crate::machine::Machine;
use std::mem;
use strc_sched_rings::item_moves::extend;
use strc_work_meaning::word::Word;

impl Machine {
    /// Items join a channel, as many as its ring has room for; none where there is no such channel.
    pub fn enter(&mut self, ring: usize, items: &[i32])
        ensures machine { (circuit : CircuitView) → IsMachine circuit self.old
            → IsMachine circuit self.new }
        ensures entered { machine_view self.new ≡ with_rings
            (given (Some ring) items.now (machine_view self.old).rings) (machine_view self.old) }
    {
        if ring < self.rings.len() {
            extend(&mut self.rings[ring], items);
        }
    }

    /// The items on a channel, in the two pieces in which its ring has them; none where there is no
    /// such channel.
    pub fn items(&self, ring: usize) -> (&[i32], &[i32])
        ensures { result.0.now ++ result.1.now
            ≡ items_at (machine_view self.now).rings (Some ring) }
    {
        if ring < self.rings.len() {
            self.rings[ring].as_slices()
        } else {
            (&[], &[])
        }
    }

    /// No items are left on a channel.
    pub fn clear_ring(&mut self, ring: usize)
        ensures machine { (circuit : CircuitView) → IsMachine circuit self.old
            → IsMachine circuit self.new }
        ensures cleared { machine_view self.new ≡ with_rings
            (slice_set (machine_view self.old).rings ring
            (buffer [] (ring_at (machine_view self.old).rings ring).capacity))
            (machine_view self.old) }
    {
        if ring < self.rings.len() {
            self.rings[ring].clear();
        }
    }

    /// A node's words and a list of words change places.
    pub fn swap_words(&mut self, node: usize, words: &mut Vec<Word>)
        requires { node < length (machine_view self.old).words }
        ensures machine { (circuit : CircuitView) → IsMachine circuit self.old
            → IsMachine circuit self.new }
        ensures given { machine_view self.new ≡ with_words
            (slice_set (machine_view self.old).words node words.old.items)
            (machine_view self.old) }
        ensures taken { words.new.items ≡ words_at (machine_view self.old).words node }
    {
        mem::swap(&mut self.words[node], words);
    }
}
