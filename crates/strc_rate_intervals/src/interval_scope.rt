// The local variables that can be seen at a place of the text, with the intervals that are known of
// them.

ghost use Rattle.std.specs.Prelude.{◌≡◌, ◌-◌, [], ◌∷◌, OnOk, length, drop, None};

use crate::interval::Interval;
use std::alloc::Global;
use std::marker::Model;
use strc_lex_names::memory::NoMemory;
use strc_lex_names::name::Name;
use strc_lex_names::scope_map::ScopeMap;

/// Names with the intervals of their variables, in the order in which they were declared. Contracts
/// see the list of the names with their intervals, the innermost first. A look-up takes expected
/// constant time.
#[derive(Drop)]
pub struct IntervalScope {
    variables: ScopeMap<Option<Interval>>,
}

impl Model for IntervalScope {
    ghost use Rattle.std.specs.Prelude.{List, ℕ, Option};
    ghost use Rattle.strc_rate_intervals.specs.Intervals.{Interval as Known};

    ghost Value = { List (List ℕ × Option Known) };

    ghost view = { λ s. s.variables };
}

impl IntervalScope {
    ghost use Rattle.strc_lex_names.specs.Names.{has_name, with_value};
    ghost use Rattle.strc_rate_intervals.specs.Intervals.{names_of};
    ghost use Rattle.strc_rate_intervals.specs.Intervals.{interval_named};

    /// No names. It takes no memory.
    pub fn new(alloc: Global) -> IntervalScope
        ensures { result ≡ [] }
    {
        IntervalScope {
            variables: ScopeMap::new(alloc),
        }
    }

    /// How many names can be seen.
    pub fn len(&self) -> usize
        ensures { result ≡ length self.now }
    {
        self.variables.len()
    }

    /// Whether one of the names is this one.
    pub fn has(&self, name: &Name) -> bool
        ensures { result ≡ has_name (names_of self.now) name.now }
    {
        self.variables.has(name)
    }

    /// The interval of the innermost variable of this name, where it is known.
    pub fn interval_of(&self, name: &Name) -> Option<Interval>
        ensures { result ≡ interval_named self.now name.now }
    {
        match self.variables.value_of(name) {
            Some(interval) => interval,
            None => None,
        }
    }

    /// One more variable, inside all others. Nothing is known of its interval.
    pub fn declare(&mut self, name: &Name) -> Result<(), NoMemory>
        ensures { OnOk result (self.new ≡ record { 0 = name.now; 1 = None } ∷ self.old) }
    {
        self.variables.declare(name, None)
    }

    /// Gives the innermost variable of this name, if there is one, another interval.
    pub fn give_interval(&mut self, name: &Name, interval: Option<Interval>)
        ensures { self.new ≡ with_value self.old name.now interval }
    {
        self.variables.set(name, interval);
    }

    /// Forgets the variables from this place on.
    pub fn leave(&mut self, start: usize)
        ensures { self.new ≡ drop (length self.old - start) self.old }
    {
        self.variables.leave(start);
    }
}
