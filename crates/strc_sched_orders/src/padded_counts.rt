// Counts for each node of a network.

ghost use Rattle.std.specs.Prelude.{◌≡◌, ◌≤◌, length, IfOk};
ghost use Rattle.strc_balance.specs.Balance.{count_at};

use std::alloc::{AllocError, Global};

/// Counts of so many nodes: 0 for those that had none.
pub(crate) fn padded(alloc: Global, counts: &[u32], size: usize) -> Result<Vec<u32>, AllocError>
    requires { length counts.now ≤ size }
    ensures size { IfOk result (λ padded. length padded.items ≡ size) }
    ensures counts { IfOk result (λ padded. count_at padded.items ≡ count_at counts.now) }
{
    let mut padded = Vec::with_capacity(alloc, size)?;
    padded.extend_from_slice(counts)?;
    padded.resize(size, 0)?;
    Ok(padded)
}
