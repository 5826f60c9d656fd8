// How high the trees of a program may be.

/// The greatest height of a statement or an expression: how many nodes are above one another.
pub const HEIGHT_LIMIT: usize = 256;
