// Steps past what was made or accepted. They are generic, so that what becomes of it where memory
// runs out is proved once, and not at each of its types.

ghost use Rattle.std.specs.Prelude.{◌≡◌, ◌⊎◌, [], ◌∷◌, ◌++◌, IfOk, IfErr, OnOk, Ok, Err};
ghost use Rattle.strc_work_rules.specs.declared.error.LowerErrorKind.TheVariants as refused;

use crate::error::LowerError;
use std::alloc::AllocError;

/// A node, if there was memory for it.
pub(crate) fn accept_node<T>(node: Result<T, AllocError>) -> Result<T, LowerError>
    ensures ok { IfOk result (λ accepted. node ≡ Ok accepted) }
    ensures err { IfErr result (λ refusal. refusal ≡ refused.NoMemory) }
{
    Ok(node?)
}

/// One more item at a list's end, if it was accepted.
pub(crate) fn push_next<T: Drop>(
    list: &mut Vec<T>,
    next: Result<T, LowerError>,
) -> Result<(), LowerError>
    ensures ok { OnOk result ((item : T) × (next ≡ Ok item)
        × (list.new.items ≡ list.old.items ++ item ∷ [])) }
    ensures err { IfErr result (λ refusal. (refusal ≡ refused.NoMemory) ⊎ (next ≡ Err refusal)) }
{
    list.push(next?)?;
    Ok(())
}
