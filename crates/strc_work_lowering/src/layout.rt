// The variables that can be seen at a place of the text, with the slots of their cells.

ghost use Rattle.std.specs.Prelude.{◌≡◌, ◌+◌, ◌-◌, ◌^◌, ◌<◌, [], ◌∷◌, IfOk, IsOk, OnOk, length};
ghost use Rattle.std.specs.Prelude.{drop};

use crate::operands::slot_past;
use std::alloc::Global;
use std::marker::Model;
use strc_lex_names::memory::NoMemory;
use strc_lex_names::name::Name;
use strc_lex_names::scope_map::ScopeMap;

/// Where a variable's cells are: the first slot, and how many there are.
#[derive(Clone, Copy)]
pub struct Place {
    pub slot: u32,
    pub cells: u32,
}

/// Variables in the order in which they were declared, each one's cells after those of the ones
/// before. Contracts see the list of the names with their numbers of cells, the innermost first. A
/// look-up takes expected constant time.
#[derive(Drop)]
pub struct Layout {
    variables: ScopeMap<Place>,
    alloc: Global,
}

impl Model for Layout {
    ghost use Rattle.strc_work_meaning.specs.Scoping.{Scope as Sized};

    ghost Value = { Sized };

    ghost use Rattle.strc_work_lowering.specs.Layouts.{with_cells, AreLaid};

    ghost view = { λ s. with_cells s.variables };

    ghost invariant = { λ s. AreLaid s.variables };
}

impl Layout {
    ghost use Rattle.strc_work_meaning.specs.Scoping as scoping;

    /// No variables. It takes no memory.
    pub fn new(alloc: Global) -> Layout
        ensures { result ≡ [] }
    {
        Layout {
            variables: ScopeMap::new(alloc),
            alloc,
        }
    }

    /// Where memory comes from.
    pub fn allocator(&self) -> Global {
        self.alloc
    }

    /// How many variables can be seen.
    pub fn len(&self) -> usize
        ensures { result ≡ length self.now }
    {
        self.variables.len()
    }

    /// How many cells they have together: the first free slot.
    pub fn total(&self) -> u32
        ensures { result ≡ scoping.total self.now }
    {
        let count = self.variables.len();
        if count == 0 {
            return 0;
        }
        let (_, last) = self.variables.at(count - 1);
        last.slot + last.cells
    }

    /// The slot after a slot.
    pub fn after(&self, slot: u32) -> Result<u32, NoMemory>
        ensures slot { IfOk result (λ next. next ≡ slot + 1) }
        ensures enough { slot + 1 < 2 ^ 32 → IsOk result }
    {
        slot_past(self.alloc, slot, 1)
    }

    /// The first slot of the innermost variable of this name, and 0 where there is none.
    pub fn slot_of(&self, name: &Name) -> u32
        ensures { result ≡ scoping.slot_of self.now name.now }
    {
        match self.variables.value_of(name) {
            Some(place) => place.slot,
            None => 0,
        }
    }

    /// How many cells the innermost variable of this name has, and 0 where there is none.
    pub fn size_of(&self, name: &Name) -> u32
        ensures { result ≡ scoping.size_of self.now name.now }
    {
        match self.variables.value_of(name) {
            Some(place) => place.cells,
            None => 0,
        }
    }

    /// One more variable, inside all others.
    pub fn declare(&mut self, name: &Name, cells: u32) -> Result<(), NoMemory>
        ensures { OnOk result (self.new ≡ record { 0 = name.now; 1 = cells } ∷ self.old) }
    {
        let slot = self.total();
        let _next = slot_past(self.alloc, slot, cells)?;
        self.variables.declare(name, Place { slot, cells })
    }

    /// Forgets the variables from this place on.
    pub fn leave(&mut self, start: usize)
        ensures { self.new ≡ drop (length self.old - start) self.old }
    {
        self.variables.leave(start);
    }
}
