// The bodies of a filter.

/// Which of a filter's bodies is fired.
#[derive(Clone, Copy)]
pub enum Body {
    /// The body of the first firing; where there is none, the work.
    Prework,
    Work,
}
