// The balance equations of a graph: one for each channel.

/// What a channel asks of a round: as many items pushed by its source as popped by its target.
#[derive(Clone, Copy)]
pub(crate) struct Equation {
    /// The node that pushes.
    pub source: usize,
    /// How many items each of its firings pushes.
    pub push: u128,
    /// The node that pops.
    pub target: usize,
    /// How many items each of its firings pops.
    pub pop: u128,
}
