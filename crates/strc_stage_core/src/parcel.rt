// A parcel: what goes from worker to worker.

ghost use Rattle.std.specs.Prelude.{◌≡◌, ◌+◌, ◌<◌, ◌≤◌, ◌++◌, ◌⊎◌, [], false, length, IfOk};
ghost use Rattle.std.specs.Prelude.{Some, None, is_some, slice_index_or, slice_set};
ghost use Rattle.strc_stage_core.specs.Actors.{or_else};
ghost use Rattle.strc_sched_outcome.specs.declared.stop.Stop.TheVariants.{NoMemory};

use crate::lists::{append_most, append_within, clear_all};
use crate::parcel_memory::{blocks_with, words_of};
use std::alloc::{AllocError, Global};
use std::marker::Model;
use std::mem;
use strc_sched_outcome::stop::Stop;
use strc_work_meaning::word::Word;

/// A block of items for each channel that crosses stages, the words of each tape, why it is
/// stopped, and the mark of the last one.
#[derive(Drop)]
pub struct Parcel {
    blocks: Vec<Vec<i32>>,
    words: Vec<Vec<Word>>,
    stop: Option<Stop>,
    last: bool,
}

impl Model for Parcel {
    ghost use Rattle.strc_stage_core.specs.Parcels.{ParcelView, parcel, load_of};

    ghost Value = { ParcelView };

    ghost view = { λ p. parcel (load_of p.blocks.items p.words.items) p.stop p.last };
}

impl Parcel {
    ghost use Rattle.strc_stage_core.specs.Parcels.{parcel, empty_load, emptied, block_at, room_at};
    ghost use Rattle.strc_stage_core.specs.Parcels.{words_at, with_block, with_words, filled};

    /// Empty blocks with these rooms, and so many tapes with no words; where memory is refused,
    /// neither, and stopped by that.
    pub fn new(alloc: Global, rooms: &[usize], tapes: usize) -> Parcel
        ensures { (result ≡ parcel (empty_load rooms.now tapes) None false)
            ⊎ (result ≡ parcel (empty_load [] 0) (Some NoMemory) false) }
    {
        match Parcel::made(alloc, rooms, tapes) {
            Ok(parcel) => parcel,
            Err(_) => Parcel {
                blocks: Vec::new(alloc),
                words: Vec::new(alloc),
                stop: Some(Stop::NoMemory),
                last: false,
            },
        }
    }

    fn made(alloc: Global, rooms: &[usize], tapes: usize) -> Result<Parcel, AllocError>
        ensures { IfOk result (λ made. made ≡ parcel (empty_load rooms.now tapes) None false) }
    {
        let blocks = blocks_with(alloc, rooms)?;
        let words = words_of(alloc, tapes)?;
        Ok(Parcel {
            blocks,
            words,
            stop: None,
            last: false,
        })
    }

    /// Is it stopped?
    pub fn stopped(&self) -> bool
        ensures { result ≡ is_some self.now.stop }
    {
        self.stop.is_some()
    }

    /// Why it is stopped.
    pub fn stop(&self) -> Option<Stop>
        ensures { result ≡ self.now.stop }
    {
        match &self.stop {
            Some(stop) => Some(stop.copy()),
            None => None,
        }
    }

    /// Is it marked as the last?
    pub fn last(&self) -> bool
        ensures { result ≡ self.now.last }
    {
        self.last
    }

    /// Stops it, unless it is stopped already.
    pub fn set_stop(&mut self, stop: Stop)
        ensures { self.new
            ≡ parcel self.old.load (or_else self.old.stop (Some stop)) self.old.last }
    {
        if self.stop.is_none() {
            self.stop = Some(stop);
        }
    }

    /// Marks it as the last, or takes the mark away.
    pub fn mark_last(&mut self, last: bool)
        ensures { self.new ≡ parcel self.old.load self.old.stop last }
    {
        self.last = last;
    }

    /// How many blocks it has.
    pub fn block_count(&self) -> usize
        ensures blocks { result ≡ length self.now.load.blocks }
        ensures rooms { result ≡ length self.now.load.rooms }
    {
        self.blocks.len()
    }

    /// How many tapes it has words of.
    pub fn tape_count(&self) -> usize
        ensures { result ≡ length self.now.load.words }
    {
        self.words.len()
    }

    /// The items of a block; none where there is no such block.
    pub fn block(&self, number: usize) -> &[i32]
        ensures { result.now ≡ block_at self.now.load number }
    {
        match self.blocks.get(number) {
            Some(block) => block.as_slice(),
            None => &[],
        }
    }

    /// How many items a block has room for.
    pub fn room(&self, number: usize) -> usize
        requires { number < length self.now.load.blocks }
        ensures { result ≡ room_at self.now.load number }
    {
        self.blocks[number].capacity()
    }

    /// The words of a tape.
    pub fn words(&self, tape: usize) -> &[Word]
        requires { tape < length self.now.load.words }
        ensures { result.now ≡ words_at self.now.load tape }
    {
        self.words[tape].as_slice()
    }

    /// Appends items to a block, which has room for them. It takes no memory.
    pub fn fill(&mut self, number: usize, items: &[i32])
        requires number { number < length self.old.load.blocks }
        requires room { length (block_at self.old.load number) + length items.now
            ≤ room_at self.old.load number }
        ensures { self.new ≡ parcel
            (with_block self.old.load number (block_at self.old.load number ++ items.now))
            self.old.stop self.old.last }
    {
        append_within(&mut self.blocks[number], items);
    }

    /// Appends items to a block, as many as it has room for; to none where there is no such block.
    /// It takes no memory.
    pub fn fill_within(&mut self, number: usize, items: &[i32])
        ensures { self.new ≡ parcel (filled self.old.load number items.now) self.old.stop
            self.old.last }
    {
        if number < self.blocks.len() {
            append_most(&mut self.blocks[number], items);
        }
    }

    /// Empties a block, where there is one. Its room stays.
    pub fn clear_block(&mut self, number: usize)
        ensures { self.new ≡ parcel (with_block self.old.load number []) self.old.stop
            self.old.last }
    {
        if number < self.blocks.len() {
            self.blocks[number].clear();
        }
    }

    /// The words of a tape, taken out; none where there is no such tape.
    pub fn take_words(&mut self, alloc: Global, tape: usize) -> Vec<Word>
        ensures words { result.items ≡ words_at self.old.load tape }
        ensures left { self.new ≡ parcel (with_words self.old.load tape []) self.old.stop
            self.old.last }
    {
        if tape < self.words.len() {
            mem::replace(&mut self.words[tape], Vec::new(alloc))
        } else {
            Vec::new(alloc)
        }
    }

    /// These become the words of a tape, where there is one.
    pub fn put_words(&mut self, tape: usize, words: Vec<Word>)
        ensures { self.new ≡ parcel (with_words self.old.load tape words.items) self.old.stop
            self.old.last }
    {
        if tape < self.words.len() {
            self.words[tape] = words;
        }
    }

    /// Empties blocks and tapes. The rooms, the stop and the mark stay. It takes no memory.
    pub fn empty(&mut self)
        ensures { self.new ≡ parcel (emptied self.old.load) self.old.stop self.old.last }
    {
        clear_all(&mut self.blocks);
        clear_all(&mut self.words);
    }
}
