// Calls of helper functions in lowered code.

ghost use Rattle.std.specs.Prelude.{◌≡◌, ◌+◌, max, IfOk};

use crate::inst::after;
use strc_lex_names::memory::NoMemory;
use strc_lex_names::name::Name;

/// A call of a helper function: its name, the first slot of its arguments, how many there are, and
/// the slot of its value. In what is run it also knows where its helper function stands among those
/// of the filter, so that no call looks for a name.
#[derive(Drop)]
pub struct Call {
    pub name: Name,
    pub first: u32,
    pub count: u32,
    pub into: u32,
    /// Where it is written, as `Origin::mark` tells it.
    pub mark: u32,
    pub place: Option<usize>,
}

impl Call {
    /// How many slots the call needs.
    pub fn slot_count(&self) -> usize
        ensures { result ≡ max (self.now.into + 1) (self.now.first + self.now.count) }
    {
        after(self.into).max(self.first as usize + self.count as usize)
    }

    /// The same call of the helper function that stands at this place.
    pub fn linked(&self, place: Option<usize>) -> Result<Call, NoMemory>
        ensures { IfOk result (λ linked. linked ≡ record self.now { place = place }) }
    {
        Ok(Call {
            name: self.name.copy()?,
            first: self.first,
            count: self.count,
            into: self.into,
            mark: self.mark,
            place,
        })
    }
}
