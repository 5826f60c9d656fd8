// Takes a filter's code.
// Gives the rates that its text comes to, counted in one walk, whether each peek is within its
// window (`check`), and whether it has no state (`stateless`).
// The theorems to rely on: `check`: Ok exactly where the counted rates are the declared ones and
// each peek is possible, and then each firing keeps the rates; `body_peeks`: counts and bounds are
// so in each run; `firings_stay_in_range`: where all peeks are closed, no firing passes its rates
// or its window, whatever it faults with; `stateless_keeps_fields`.
// Stands on strc_work_code, whose trees these are, and on strc_rate_intervals, which says what
// numbers expressions can have and what a text writes.
#![tactic(auto)]

pub mod counts;
mod expression_peeks;
pub mod laws;
pub mod peeks;
pub mod peeks_laws;
pub mod rates;
pub mod sight;
pub mod stateless;
pub mod stateless_laws;
mod unreachable_peeks;
