// A machine whose words have been written, and which reads its input from item 0 again.

ghost use Rattle.std.specs.Prelude.{◌≡◌, map, slice_set};
ghost use Rattle.std.specs.Vec.{vec_capacity};
ghost use Rattle.strc_sched_laws.specs.Machine.{CircuitView};
ghost use Rattle.strc_sched_machine.specs.Memory.{word_rooms};
ghost use Rattle.strc_sched_machine.specs.Running.{IsMachine, machine_view, with_fired, with_words};
ghost use Rattle.strc_sched_machine.specs.Running.{without_words, words_of};

use crate::machine::Machine;
use strc_work_meaning::word::Word;

impl Machine {
    /// The next firing of the reader is that of number 0, and no node has words; the memory of
    /// those that it had stays.
    pub fn renew(&mut self, reader: usize)
        ensures machine { (circuit : CircuitView) → IsMachine circuit self.old
            → IsMachine circuit self.new }
        ensures renewed { machine_view self.new
            ≡ with_words (without_words (machine_view self.old).words) (with_fired
            (slice_set (machine_view self.old).fired reader 0) (machine_view self.old)) }
        ensures room { word_rooms self.new ≡ word_rooms self.old }
    {
        if reader < self.fired.len() {
            self.fired[reader] = 0;
        }
        clear_words(&mut self.words);
    }
}

/// Empties each of these lists, whose memory stays.
fn clear_words(words: &mut [Vec<Word>])
    ensures none { words_of words.new ≡ without_words (words_of words.old) }
    ensures room { map vec_capacity words.new ≡ map vec_capacity words.old }
{
    for own in words.iter_mut() {
        own.clear();
    }
}
