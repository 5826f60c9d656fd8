// Parts of the sentences that tell why a text is refused.

/// When no node finds its items.
pub(crate) fn when(in_startup: bool) -> &'static str {
    if in_startup {
        "before the first round"
    } else {
        "in a round"
    }
}
