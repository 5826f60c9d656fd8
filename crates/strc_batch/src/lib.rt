// Takes a plan, and how many rounds a batch has.
// Gives what nodes fire in such a batch, group by group, how large its buffers are, and how many
// rounds it is to have.
// The theorem to rely on: `batch_of`, whose units fire the batch of the laws on plans by batches,
// each of the finest groups that no stage parts so many times over, and whose sizes are those that
// these laws ask for, and no larger.
// Stands on strc_batch_plans, whose laws such batches are for, on strc_stage_plan, whose plan and
// groups it takes, and on strc_stage_cut, which knows what channels carry in a round.
#![tactic(auto)]

ghost use Rattle.strc_batch.specs.Rows.{ChoiceRow, ListedRow};

pub mod batch;
mod batch_units;
pub mod choice;
pub mod error;
mod group_units;
mod groups;
mod listed;
pub mod sizes;

pub use batch::{Batch, batch_of};
pub use choice::chosen_batch;
pub use error::BatchError;
pub use sizes::batch_sizes;

/// The firings of groups that a batch lists, of which those of one node in a row are none.
pub fn listed_row()
    ensures { ListedRow }
{}

/// How many rounds a batch is to have, of a plan whose units have ten turns or one.
pub fn choice_row()
    ensures { ChoiceRow }
{}
