// A filter of a program, with its constants substituted.

ghost use Rattle.std.specs.Prelude.{◌≡◌, IfOk};
ghost use Rattle.strc_work_meaning.specs.Filters.{filter_of};

use std::alloc::{AllocError, Global};
use strc_lex_names::memory::NoMemory;
use strc_lex_names::name::Name;
use strc_work_code::code::Code;

/// A filter with its constants substituted.
pub struct Instance {
    /// The name that it is declared by; an anonymous one has none.
    pub name: Option<Name>,
    pub code: Code,
}

impl Drop for Instance {
    fn drop(self) {
        let Instance { name: _, code: _ } = self;
    }
}

impl Instance {
    /// An equal filter of the same name.
    pub fn copy(&self, alloc: Global) -> Result<Instance, NoMemory>
        ensures name { IfOk result (λ copy. copy.name ≡ self.now.name) }
        ensures code { IfOk result (λ copy. filter_of copy.code ≡ filter_of self.now.code) }
    {
        let name = copy_name(&self.name)?;
        let code = self.code.copy()?;
        Ok(Instance { name, code })
    }
}

/// An equal name, where there is one.
fn copy_name(name: &Option<Name>) -> Result<Option<Name>, AllocError>
    ensures { IfOk result (λ copy. copy ≡ name.now) }
{
    match name {
        None => Ok(None),
        Some(name) => Ok(Some(name.copy()?)),
    }
}
