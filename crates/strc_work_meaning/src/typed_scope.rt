// The variables that can be seen at a place of the text, with their types.

ghost use Rattle.std.specs.Prelude.{◌≡◌, ◌-◌, ◌<◌, suc, [], ◌∷◌, OnOk, OnErr, Some, length, drop};
ghost use Rattle.std.specs.Prelude.{take, slice_get};

use crate::types::ValueType;
use std::alloc::Global;
use std::marker::Model;
use strc_lex_names::memory::NoMemory;
use strc_lex_names::name::Name;
use strc_lex_names::scope_map::ScopeMap;

/// Names with the types of their variables, in the order in which they were declared. Contracts see
/// the list of the names with their types, the innermost first. A look-up takes expected constant
/// time.
// It says at one type what ScopeMap says at each, so that lemmas on typed names are found.
pub struct TypedScope {
    variables: ScopeMap<ValueType>,
}

impl Drop for TypedScope {
    fn drop(self) {
        let TypedScope { variables: _ } = self;
    }
}

impl Model for TypedScope {
    ghost use Rattle.std.specs.Prelude.{List, ℕ};
    ghost use Rattle.strc_work_meaning.specs.declared.types.ValueType.{ValueType as Kind};

    ghost Value = { List (List ℕ × Kind) };

    ghost view = { λ s. s.variables };
}

impl TypedScope {
    ghost use Rattle.strc_lex_names.specs.Names.{has_name, number_named, plain_names, value_named};

    /// No names. It takes no memory.
    pub fn new(alloc: Global) -> TypedScope
        ensures { result ≡ [] }
    {
        TypedScope {
            variables: ScopeMap::new(alloc),
        }
    }

    /// How many names can be seen.
    pub fn len(&self) -> usize
        ensures { result ≡ length self.now }
    {
        self.variables.len()
    }

    /// The type of the innermost variable of this name.
    pub fn type_of(&self, name: &Name) -> Option<ValueType>
        ensures { result ≡ value_named self.now name.now }
    {
        self.variables.value_of(name)
    }

    /// The number of the innermost variable of this name: how many are outside it.
    pub fn number_of(&self, name: &Name) -> Option<usize>
        ensures { result ≡ number_named (plain_names self.now) name.now }
    {
        self.variables.number_of(name)
    }

    /// The name of this number, with its type.
    pub fn at(&self, number: usize) -> (&[u8], ValueType)
        requires { number < length self.now }
        ensures { slice_get self.now (length self.now - suc number)
            ≡ Some (record { 0 = result.0.now; 1 = result.1 }) }
    {
        self.variables.at(number)
    }

    /// Whether one of the names from this place on is this one.
    pub fn has_since(&self, start: usize, name: &Name) -> bool
        ensures { result ≡ has_name (take (length self.now - start)
            (plain_names self.now)) name.now }
    {
        self.variables.has_since(start, name)
    }

    /// One more variable, inside all others.
    pub fn declare(&mut self, name: &Name, kind: ValueType) -> Result<(), NoMemory>
        ensures ok { OnOk result (self.new ≡ record { 0 = name.now; 1 = kind } ∷ self.old) }
        ensures err { OnErr result (self.new ≡ self.old) }
    {
        self.variables.declare(name, kind)
    }

    /// Forgets the variables from this place on.
    pub fn leave(&mut self, start: usize)
        ensures { self.new ≡ drop (length self.old - start) self.old }
    {
        self.variables.leave(start);
    }
}
