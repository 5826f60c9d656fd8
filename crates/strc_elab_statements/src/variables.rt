// The variables of a composite stream's body.

ghost use Rattle.std.specs.Prelude.{◌≡◌, pos, slice_index_or, slice_set};

use std::alloc::Global;
use std::marker::Model;
use strc_lex_names::memory::NoMemory;
use strc_lex_names::name::Name;
use strc_work_meaning::typed_scope::TypedScope;
use strc_work_meaning::types::ValueType;

/// The variables that can be seen at a place of a body, with their types and the values of their
/// cells: one cell for a number or a truth value, and one for each element of an array. Contracts
/// see the names with their types and the variables with their values, the innermost first. A
/// look-up takes expected constant time.
pub struct Variables {
    names: TypedScope,
    /// The cells of the variable of each number.
    cells: Vec<Vec<i32>>,
}

impl Drop for Variables {
    fn drop(self) {
        let Variables { names: _, cells: _ } = self;
    }
}

impl Model for Variables {
    ghost use Rattle.std.specs.Prelude.{◌≡◌, length};
    ghost use Rattle.strc_elab_statements.specs.Bindings.{Bindings, with_cells};

    ghost Value = { Bindings };

    ghost view = { λ s. record { names = s.names; variables = with_cells s.names s.cells.items } };

    ghost invariant = { λ s. length s.cells.items ≡ length s.names };
}

impl Variables {
    ghost use Rattle.std.specs.Prelude.{◌≡◌, ◌-◌, ◌<◌, [], ◌∷◌, OnOk, length, drop, pos};
    ghost use Rattle.std.specs.Prelude.{slice_index_or};
    ghost use Rattle.strc_elab_statements.specs.Bindings.{cells_of};
    ghost use Rattle.strc_work_meaning.specs.Firing.{cells_named, with_cell};

    /// No variables. It takes no memory.
    pub fn new(alloc: Global) -> Variables
        ensures { result ≡ record { names = []; variables = [] } }
    {
        Variables {
            names: TypedScope::new(alloc),
            cells: Vec::new(alloc),
        }
    }

    /// The names with their types.
    pub fn names(&self) -> &TypedScope
        ensures { result.now ≡ self.now.names }
    {
        &self.names
    }

    /// How many variables there are.
    pub fn count(&self) -> usize
        ensures names { result ≡ length self.now.names }
        ensures variables { result ≡ length self.now.variables }
    {
        self.names.len()
    }

    /// How many cells the innermost variable of a name has; none where there is no such variable.
    pub fn size_of(&self, name: &Name) -> usize
        ensures { result ≡ length (cells_named self.now.variables name.now) }
    {
        match self.names.number_of(name) {
            Some(slot) => self.cells[slot].len(),
            None => 0,
        }
    }

    /// The value of a cell of the innermost variable of a name; 0 where there is none.
    pub fn cell(&self, name: &Name, place: usize) -> i32
        ensures { result ≡ slice_index_or (cells_named self.now.variables name.now) place (pos 0) }
    {
        match self.names.number_of(name) {
            Some(slot) => cell_in(&self.cells[slot], place),
            None => 0,
        }
    }

    /// The first cell of the variable of a number: how many are outside it.
    pub fn first_cell(&self, number: usize) -> i32
        requires { number < length self.now.names }
        ensures { result ≡ slice_index_or (cells_of self.now.variables number) 0 (pos 0) }
    {
        cell_in(&self.cells[number], 0)
    }

    /// A cell of the innermost variable of a name gets a value.
    pub fn set(&mut self, name: &Name, place: usize, value: i32)
        ensures { self.new ≡ record self.old {
          variables = with_cell self.old.variables name.now
              place value;
        } }
    {
        match self.names.number_of(name) {
            Some(slot) => put_in(&mut self.cells[slot], place, value),
            None => {}
        }
    }

    /// One more variable, inside all others.
    pub fn declare(&mut self, name: &Name, kind: ValueType, cells: Vec<i32>) -> Result<(), NoMemory>
        ensures { OnOk result (self.new ≡ record {
          names = record { 0 = name.now; 1 = kind } ∷ self.old.names;
          variables = record { 0 = name.now; 1 = cells.items } ∷ self.old.variables;
        }) }
    {
        // What can fail comes before the first change.
        self.cells.reserve(1)?;
        self.names.declare(name, kind)?;
        self.cells.push(cells)?;
        Ok(())
    }

    /// Forgets the variables from this place on.
    pub fn leave(&mut self, start: usize)
        ensures { self.new ≡ record {
          names = drop (length self.old.names - start) self.old.names;
          variables = drop (length self.old.variables - start) self.old.variables;
        } }
    {
        self.names.leave(start);
        self.cells.truncate(start);
    }
}

/// The value of a cell; 0 where there is none.
fn cell_in(row: &[i32], place: usize) -> i32
    ensures { result ≡ slice_index_or row.now place (pos 0) }
{
    if place < row.len() { row[place] } else { 0 }
}

/// A cell gets a value, where there is one.
fn put_in(row: &mut Vec<i32>, place: usize, value: i32)
    ensures { row.new.items ≡ slice_set row.old.items place value }
{
    if place < row.len() {
        row[place] = value;
    }
}
