// The constants of a filter: the parameters and the surrounding numbers that its text may name.

ghost use Rattle.std.specs.Prelude.{◌≡◌, ◌-◌, ◌<◌, suc, [], ◌∷◌, OnOk, OnErr, Some, length};
ghost use Rattle.std.specs.Prelude.{slice_get};

use std::alloc::Global;
use std::marker::Model;
use strc_lex_names::memory::NoMemory;
use strc_lex_names::name::Name;
use strc_lex_names::scope_map::ScopeMap;

/// Names with their values. Contracts see the list of the pairs, the one pushed last first: it
/// shadows earlier ones of its name. A look-up takes expected constant time.
pub struct Constants {
    values: ScopeMap<i32>,
}

impl Drop for Constants {
    fn drop(self) {
        let Constants { values: _ } = self;
    }
}

impl Model for Constants {
    ghost use Rattle.std.specs.Prelude.{List, ℕ, ℤ};

    ghost Value = { List (List ℕ × ℤ) };

    ghost view = { λ c. c.values };
}

impl Constants {
    ghost use Rattle.strc_lex_names.specs.Names.{value_named};

    /// No constants. It takes no memory.
    pub fn new(alloc: Global) -> Constants
        ensures { result ≡ [] }
    {
        Constants {
            values: ScopeMap::new(alloc),
        }
    }

    /// One more constant.
    pub fn push(&mut self, name: &Name, value: i32) -> Result<(), NoMemory>
        ensures ok { OnOk result (self.new ≡ record { 0 = name.now; 1 = value } ∷ self.old) }
        ensures err { OnErr result (self.new ≡ self.old) }
    {
        self.values.declare(name, value)
    }

    /// How many constants there are, shadowed ones too.
    pub fn len(&self) -> usize
        ensures { result ≡ length self.now }
    {
        self.values.len()
    }

    /// The name of a constant with its value: the one pushed first has the number 0.
    pub fn at(&self, number: usize) -> (&[u8], i32)
        requires { number < length self.now }
        ensures { slice_get self.now (length self.now - suc number)
            ≡ Some (record { 0 = result.0.now; 1 = result.1 }) }
    {
        self.values.at(number)
    }

    /// The value of the last constant of this name.
    pub fn value_of(&self, name: &Name) -> Option<i32>
        ensures { result ≡ value_named self.now name.now }
    {
        self.values.value_of(name)
    }
}
