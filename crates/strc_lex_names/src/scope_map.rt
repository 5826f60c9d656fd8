// The names that are in scope at a place of the text, each with a value.

ghost use Rattle.std.specs.Prelude.{◌≡◌, ◌-◌, ◌<◌, suc, [], ◌∷◌, OnOk, OnErr, Some, length, drop};
ghost use Rattle.std.specs.Prelude.{take, slice_get};

use crate::memory::NoMemory;
use crate::name::Name;
use crate::scope::Scope;
use std::alloc::Global;
use std::marker::Model;

/// Names with a value each, as the types of variables, in the order in which they were declared,
/// numbered from 0. Contracts see the list of the names with their values, the innermost first. A
/// look-up takes expected constant time.
pub struct ScopeMap<T> {
    names: Scope,
    /// The value of the name of each number.
    values: Vec<T>,
}

impl<T: Drop> Drop for ScopeMap<T> {
    fn drop(self) {
        let ScopeMap {
            names: _,
            values: _,
        } = self;
    }
}

impl<T> Model for ScopeMap<T> {
    ghost use Rattle.std.specs.Prelude.{◌≡◌, List, ℕ, length, reverse};
    ghost use Rattle.strc_lex_names.specs.Names.{with_values};

    ghost Value = { List (List ℕ × T) };

    ghost view = { λ s. with_values s.names (reverse s.values.items) };

    ghost invariant = { λ s. length s.values.items ≡ length s.names };
}

impl<T> ScopeMap<T> {
    ghost use Rattle.strc_lex_names.specs.Names.{has_name, number_named, plain_names};

    /// No names. It takes no memory.
    pub fn new(alloc: Global) -> ScopeMap<T>
        ensures { result ≡ [] }
    {
        ScopeMap {
            names: Scope::new(alloc),
            values: Vec::new(alloc),
        }
    }

    /// How many names are in scope.
    pub fn len(&self) -> usize
        ensures { result ≡ length self.now }
    {
        self.names.len()
    }

    /// The number of the innermost declaration of this name: how many are outside it.
    pub fn number_of(&self, name: &Name) -> Option<usize>
        ensures { result ≡ number_named (plain_names self.now) name.now }
    {
        self.names.number_of(name)
    }

    /// Whether one of the names is this one.
    pub fn has(&self, name: &Name) -> bool
        ensures { result ≡ has_name (plain_names self.now) name.now }
    {
        self.names.has(name)
    }

    /// Whether one of the names from this number on is this one.
    pub fn has_since(&self, start: usize, name: &Name) -> bool
        ensures { result ≡ has_name (take (length self.now - start)
            (plain_names self.now)) name.now }
    {
        self.names.has_since(start, name)
    }

    /// One more name, inside all others.
    pub fn declare(&mut self, name: &Name, value: T) -> Result<(), NoMemory>
    where
        T: Drop,
        ensures ok { OnOk result (self.new ≡ record { 0 = name.now; 1 = value } ∷ self.old) }
        ensures err { OnErr result (self.new ≡ self.old) }
    {
        // What can fail comes before the first change.
        self.values.reserve(1)?;
        self.names.declare(name)?;
        self.values.push(value)?;
        Ok(())
    }

    /// Forgets the names from this number on.
    pub fn leave(&mut self, start: usize)
    where
        T: Drop,
        ensures { self.new ≡ drop (length self.old - start) self.old }
    {
        self.names.leave(start);
        self.values.truncate(start);
    }
}

impl<T: Copy> ScopeMap<T> {
    ghost use Rattle.strc_lex_names.specs.Names.{value_named, with_value};

    /// The value of the innermost declaration of this name.
    pub fn value_of(&self, name: &Name) -> Option<T>
        ensures { result ≡ value_named self.now name.now }
    {
        match self.names.number_of(name) {
            Some(number) => Some(self.values[number]),
            None => None,
        }
    }

    /// The name of this number, with its value.
    pub fn at(&self, number: usize) -> (&[u8], T)
        requires { number < length self.now }
        ensures { slice_get self.now (length self.now - suc number)
            ≡ Some (record { 0 = result.0.now; 1 = result.1 }) }
    {
        (self.names.name_at(number), self.values[number])
    }

    /// Gives the innermost declaration of this name, if there is one, another value.
    pub fn set(&mut self, name: &Name, value: T)
        ensures { self.new ≡ with_value self.old name.now value }
    {
        match self.names.number_of(name) {
            Some(number) => self.values[number] = value,
            None => {}
        }
    }
}
