// How large a buffer can be, and how many nodes units can name.

/// The greatest number of items that the buffer of a channel can hold.
pub const SIZE_LIMIT: u128 = 16_777_216;

/// How many nodes 32 bits can number.
pub const NUMBERED_NODES: usize = 1 << 32;
