// Takes nothing: this crate is tests alone.
// Gives runs by batches of rounds, which are to come to what rounds one by one come to. There is no
// theorem here: the values are worked out by hand.
// Stands on strc_run.
#![tactic(auto)]

#[cfg(test)]
mod batches;
