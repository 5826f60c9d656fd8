// What of a parcel belongs to a stage.

/// A block of each parcel, and the ring of the channel whose items it carries.
#[derive(Clone, Copy)]
pub struct Crossing {
    pub block: usize,
    pub ring: usize,
}

/// A tape of each parcel, and the node whose words it carries.
#[derive(Clone, Copy)]
pub struct TapeOf {
    pub tape: usize,
    pub node: usize,
}
