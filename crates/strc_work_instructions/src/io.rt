//! What a firing has popped, pushed and printed so far.

ghost use Rattle.std.specs.Prelude.{◌≡◌, ◌≤◌, ◌<◌, ◌↔◌, [], None, length, IsOk, OnOk, OnErr};
ghost use Rattle.std.specs.Prelude.{IfErr, IfSome, slice_get};
ghost use Rattle.strc_work_meaning.specs.Firing.{turn_limit, printed};
ghost use Rattle.strc_work_instructions.specs.Running.{with_popped, with_pushed, with_turned};
ghost use Rattle.strc_work_instructions.specs.declared.trap.Trap.TheVariants as traps;

use crate::port::FiringPort;
use crate::trap::Trap;
use crate::window::Window;
use std::alloc::Global;
use std::marker::Model;
use std::mem;
use strc_work_meaning::fault::{TURN_LIMIT, Trapped};
use strc_work_meaning::word::Word;

/// The items that a firing has popped and pushed, the words that it has printed, and the turns that
/// its loops have made. It has a buffer for the items that are pushed, and notes what trapped, of
/// which contracts see nothing.
#[derive(Drop)]
pub struct FiringIo {
    popped: u32,
    pushed: usize,
    turns: u32,
    buffer: Vec<i32>,
    words: Vec<Word>,
    trapped: Trapped,
}

impl Model for FiringIo {
    ghost use Rattle.std.specs.Prelude.{◌≤◌, length, take};
    ghost use Rattle.strc_work_instructions.specs.Running.{Io};

    ghost Value = { Io };

    ghost view = { λ io. record {
      traffic = record {
        popped = io.popped;
        pushes = take io.pushed io.buffer.items;
        words = io.words.items;
        turns = io.turns;
      };
      room = length io.buffer.items;
    } };

    ghost invariant = { λ io. io.pushed ≤ length io.buffer.items };
}

impl FiringIo {
    ghost use Rattle.strc_work_instructions.specs.Running.{fresh_io, Io};

    /// Nothing popped, pushed or printed yet. Its buffer has room for as many items as it holds.
    pub fn new(alloc: Global, buffer: Vec<i32>) -> FiringIo
        ensures { result ≡ fresh_io (length buffer.items) [] }
    {
        FiringIo {
            popped: 0,
            pushed: 0,
            turns: 0,
            buffer,
            words: Vec::new(alloc),
            trapped: Trapped::nothing(),
        }
    }

    /// The beginning of a firing, which prints after these words.
    #[inline]
    pub fn begin(&mut self, words: &mut Vec<Word>)
        ensures { self.new ≡ fresh_io self.old.room words.old.items }
    {
        self.popped = 0;
        self.pushed = 0;
        self.turns = 0;
        self.trapped = Trapped::nothing();
        mem::swap(&mut self.words, words);
    }

    /// The end of a firing: gives the words back.
    #[inline]
    pub fn end(&mut self, words: &mut Vec<Word>)
        ensures words { words.new.items ≡ self.old.traffic.words }
        ensures pushes { self.new.traffic.pushes ≡ self.old.traffic.pushes }
        ensures room { self.new.room ≡ self.old.room }
    {
        mem::swap(&mut self.words, words);
    }

    /// The same answer; where it is a trap, it is noted where the instruction is written, which
    /// element or item it sought, and how many there are.
    #[inline(always)]
    pub fn noted(
        &mut self,
        answer: Result<(), Trap>,
        mark: u32,
        index: i32,
        count: u32,
    ) -> Result<(), Trap>
        ensures answer { result ≡ answer }
        ensures unchanged { self.new ≡ self.old }
    {
        if answer.is_err() {
            self.trapped = Trapped { mark, index, count };
        }
        answer
    }

    /// The same answer; where it is a turn too many, of this loop or in it, and nothing is noted of
    /// a loop inside, it is noted where the loop is written.
    #[inline(always)]
    pub fn looped(&mut self, answer: Result<(), Trap>, mark: u32) -> Result<(), Trap>
        ensures answer { result ≡ answer }
        ensures unchanged { self.new ≡ self.old }
    {
        if let Err(Trap::Turns) = answer {
            self.note_first(mark);
        }
        answer
    }

    /// The same answer; where it is a call too many, this one or one inside, and nothing is noted
    /// of one inside, it is noted where the call is written.
    #[inline(always)]
    pub fn called(&mut self, answer: Result<(), Trap>, mark: u32) -> Result<(), Trap>
        ensures answer { result ≡ answer }
        ensures unchanged { self.new ≡ self.old }
    {
        if let Err(Trap::Calls) = answer {
            self.note_first(mark);
        }
        answer
    }

    /// Notes a mark where none is noted.
    fn note_first(&mut self, mark: u32)
        ensures { self.new ≡ self.old }
    {
        if self.trapped.mark == 0 {
            self.trapped.mark = mark;
        }
    }

    /// What was noted of the instruction that trapped; nothing where none has, or where it wasn't
    /// noted.
    pub fn trapped(&self) -> Trapped {
        self.trapped
    }

    /// The items that are pushed, in order.
    #[inline]
    pub fn pushes(&self) -> &[i32]
        ensures { result.now ≡ self.now.traffic.pushes }
    {
        &self.buffer[..self.pushed]
    }

    /// How many items are popped.
    #[inline(always)]
    pub fn popped(&self) -> u32
        ensures { result ≡ self.now.traffic.popped }
    {
        self.popped
    }

    /// The next item of the window, where one more may be popped.
    #[inline(always)]
    pub fn pop<W: Window>(&mut self, port: &FiringPort<W>) -> Option<i32>
        ensures item { result ≡ slice_get port.now.front self.old.traffic.popped }
        ensures popped { IfSome result (λ item. self.new ≡ with_popped self.old) }
        ensures unchanged { result ≡ None → self.new ≡ self.old }
    {
        let item = port.front(self.popped)?;
        self.popped += 1;
        Some(item)
    }

    /// One more item, unless so many are pushed already as may be.
    #[inline(always)]
    pub fn push<W: Window>(&mut self, port: &FiringPort<W>, item: i32) -> Result<(), Trap>
        requires { port.now.room ≤ self.old.room }
        ensures ok { OnOk result (self.new ≡ with_pushed self.old item) }
        ensures room { IsOk result ↔ (length self.old.traffic.pushes < port.now.room) }
        ensures err { IfErr result (λ trap. trap ≡ traps.PeekRange) }
        ensures unchanged { OnErr result (self.new ≡ self.old) }
    {
        if self.pushed >= port.room() {
            return Err(Trap::PeekRange);
        }
        self.buffer[self.pushed] = item;
        self.pushed += 1;
        Ok(())
    }

    /// One more word.
    pub fn print(&mut self, value: i32, ends_line: bool) -> Result<(), Trap>
        ensures ok { OnOk result (self.new ≡ record self.old {
          traffic = printed (record { value = value; ends_line = ends_line }) self.old.traffic;
        }) }
        ensures err { IfErr result (λ trap. trap ≡ traps.NoMemory) }
        ensures unchanged { OnErr result (self.new ≡ self.old) }
    {
        match self.words.push(Word { value, ends_line }) {
            Ok(()) => Ok(()),
            Err(_) => Err(Trap::NoMemory),
        }
    }

    /// One more turn of a loop, unless the limit of the firing is reached.
    #[inline(always)]
    pub fn turn(&mut self) -> Result<(), Trap>
        ensures ok { OnOk result (self.new ≡ with_turned self.old) }
        ensures room { IsOk result ↔ (self.old.traffic.turns < turn_limit) }
        ensures err { IfErr result (λ trap. trap ≡ traps.Turns) }
        ensures unchanged { OnErr result (self.new ≡ self.old) }
    {
        if self.turns >= TURN_LIMIT {
            return Err(Trap::Turns);
        }
        self.turns += 1;
        Ok(())
    }
}
