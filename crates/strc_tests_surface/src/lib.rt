// Takes nothing: this crate is tests alone.
// Gives each call that other programs rely on, by the path at which they find it, which begins with
// the head of a wing. There is no theorem here: the values are worked out by hand.
// Stands on the heads of the wings.
#![tactic(auto)]

#[cfg(test)]
mod commands;
#[cfg(test)]
mod filters;
#[cfg(test)]
mod front;
#[cfg(test)]
mod programs;
#[cfg(test)]
mod runs;
#[cfg(test)]
mod schedules;
#[cfg(test)]
mod stages;
