// Places in a text.

/// The bytes from `start` up to `end`, `end` not included.
#[derive(Clone, Copy)]
pub struct Span {
    pub start: usize,
    pub end: usize,
}
