//! The two events of a ring.

/// What one actor does. Actors are the stages by their numbers, and then the collector.
#[derive(Clone, Copy)]
pub enum Event {
    /// It takes the first parcel of the link before it, and holds what its step makes of it.
    Take(usize),
    /// It gives what it holds to the link after it.
    Give(usize),
}
