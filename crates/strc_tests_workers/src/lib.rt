// Takes nothing: this crate is tests alone.
// Gives runs of whole programs by the stages of several workers, in threads and in random orders of
// events. There is no theorem here: the outcomes are worked out by hand.
// Stands on strc_run_workers, and on strc_stage_cut and strc_stage_steps, whose rings it drives;
// strc_run gives the plans and the outcomes of one worker.
#![tactic(auto)]

#[cfg(test)]
mod counts;
#[cfg(test)]
mod dice;
#[cfg(test)]
mod gates;
#[cfg(test)]
mod orders;
#[cfg(test)]
mod outcome_text;
#[cfg(test)]
mod programs;
#[cfg(test)]
mod rings;
#[cfg(test)]
mod steps;
#[cfg(test)]
mod workers;
