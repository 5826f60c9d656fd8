// How large the stacks of the workers' threads are.

/// The size of the stack of worker `at`, in bytes. A test asks for one that is refused.
pub trait Stacks {
    fn size(&self, at: u32) -> usize;
}

/// Large enough for as many calls of helper functions as may be running at once, each in the
/// deepest loops. It is memory only as far as it is used.
pub struct Deep;

impl Stacks for Deep {
    fn size(&self, _at: u32) -> usize {
        64 << 20
    }
}
