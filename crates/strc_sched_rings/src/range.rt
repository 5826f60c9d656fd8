// Which nodes a part has.

ghost use Rattle.std.specs.Prelude.{◌≡◌};
ghost use Rattle.strc_sched_rings.specs.Parts as spec;

/// Whether a node is one of those from `first` up to `next`.
pub fn is_within(first: usize, next: usize, node: usize) -> bool
    ensures { result ≡ spec.is_within first next node }
{
    first <= node && node < next
}
