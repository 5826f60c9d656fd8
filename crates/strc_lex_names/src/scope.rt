// The names of variables that can be seen at a place of the text.

ghost use Rattle.std.specs.Prelude.{◌≡◌, ◌-◌, ◌<◌, ◌≤◌, suc, [], ◌∷◌, OnOk, OnErr, IfErr};
ghost use Rattle.std.specs.Prelude.{IsSome, Some, length, drop, take, slice_get};
ghost use Rattle.strc_lex_names.specs.Tables.{slot_in, IsUpdated};

use crate::memory::NoMemory;
use crate::name::Name;
use std::alloc::Global;
use std::collections::HashMap;
use std::marker::Model;

/// A name, and the number of the variable of this name that it shadows.
#[derive(Drop)]
struct Declared {
    name: Vec<u8>,
    shadows: Option<usize>,
}

/// Names in the order in which they were declared, numbered from 0. Contracts see the list of the
/// names, the innermost first. A look-up takes expected constant time.
pub struct Scope {
    declared: Vec<Declared>,
    /// The number of the innermost variable of each name.
    innermost: HashMap<Vec<u8>, usize>,
}

impl Drop for Scope {
    fn drop(self) {
        let Scope {
            declared: _,
            innermost: _,
        } = self;
    }
}

impl Model for Scope {
    ghost use Rattle.std.specs.Prelude.{List, ℕ, reverse};

    ghost Value = { List (List ℕ) };

    ghost use Rattle.strc_lex_names.specs.Tables.{slot_in};
    ghost use Rattle.strc_lex_names.specs.Scopes.{names_of, IsScope};

    ghost view = { λ s. names_of s.declared.items };

    ghost invariant = { λ s. IsScope (reverse s.declared.items) (slot_in s.innermost) };
}

#[tactic(auto, unfolding(crate::specs::Scopes::names_of, crate::specs::Scopes::IsScope))]
impl Scope {
    ghost use Rattle.strc_lex_names.specs.Names.{has_name, number_named};

    /// No names. It takes no memory.
    pub fn new(alloc: Global) -> Scope
        ensures { result ≡ [] }
    {
        Scope {
            declared: Vec::new(alloc),
            innermost: HashMap::new(alloc),
        }
    }

    /// How many names can be seen.
    pub fn len(&self) -> usize
        ensures { result ≡ length self.now }
    {
        self.declared.len()
    }

    /// The number of the innermost variable of this name.
    pub fn number_of(&self, name: &Name) -> Option<usize>
        ensures { result ≡ number_named self.now name.now }
    {
        self.innermost.get(name.as_bytes()).copied()
    }

    /// The name of this number.
    pub fn name_at(&self, number: usize) -> &[u8]
        requires { number < length self.now }
        ensures { slice_get self.now (length self.now - suc number) ≡ Some result.now }
    {
        self.declared[number].name.as_slice()
    }

    /// Whether one of the names is this one.
    pub fn has(&self, name: &Name) -> bool
        ensures { result ≡ has_name self.now name.now }
    {
        self.has_since(0, name)
    }

    /// Whether one of the names from this place on is this one.
    pub fn has_since(&self, start: usize, name: &Name) -> bool
        ensures { result ≡ has_name (take (length self.now - start) self.now) name.now }
    {
        match self.number_of(name) {
            Some(slot) => slot >= start,
            None => false,
        }
    }

    /// One more name, inside all others.
    pub fn declare(&mut self, name: &Name) -> Result<(), NoMemory>
        ensures ok { OnOk result (self.new ≡ name.now ∷ self.old) }
        ensures err { OnErr result (self.new ≡ self.old) }
    {
        let alloc = *self.declared.allocator();
        let slot = self.declared.len();
        let shadows = self.innermost.get(name.as_bytes()).copied();
        let key = name.as_bytes().to_vec(alloc)?;
        let name = name.as_bytes().to_vec(alloc)?;
        // What can fail comes before the change of the table.
        self.declared.reserve(1)?;
        put_in(&mut self.innermost, key, slot)?;
        self.declared.push(Declared { name, shadows })?;
        Ok(())
    }

    /// Forgets the names from this place on.
    pub fn leave(&mut self, start: usize)
        ensures { self.new ≡ drop (length self.old - start) self.old }
    {
        while self.declared.len() > start {
            if let Some(last) = self.declared.pop() {
                let Declared { name, shadows } = last;
                put_back(&mut self.innermost, name, shadows);
            }
        }
    }
}

/// Writes the slot of a name into a table. Where memory runs out the table stays as it was.
fn put_in(table: &mut HashMap<Vec<u8>, usize>, name: Vec<u8>, slot: usize) -> Result<(), NoMemory>
    ensures ok { OnOk result (IsUpdated (slot_in table.old) name.items (Some slot)
        (slot_in table.new)) }
    ensures err { OnErr result (table.new.entries ≡ table.old.entries) }
{
    table.insert(name, slot)?;
    Ok(())
}

/// Writes the slot that a table had for a name before its newest one, or takes the name out. The
/// name is there, so this cannot want memory.
fn put_back(table: &mut HashMap<Vec<u8>, usize>, name: Vec<u8>, slot: Option<usize>)
    requires { IsSome (slot_in table.old name.items) }
    ensures { IsUpdated (slot_in table.old) name.items slot (slot_in table.new) }
{
    match slot {
        Some(slot) => {
            let _ = table.insert(name, slot);
        }
        None => {
            table.remove(name.as_slice());
        }
    }
}
