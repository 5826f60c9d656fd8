// What a schedule is made of.

/// Nodes that fire in turn, and the whole list a number of times: the list of a unit of a greedy
/// order has one node.
pub struct Unit {
    /// How many times the list fires.
    pub turns: u32,
    /// The nodes, by their numbers; a node can occur there more than once.
    pub nodes: Vec<u32>,
}

impl Drop for Unit {
    fn drop(self) {
        let Unit { turns: _, nodes: _ } = self;
    }
}
