// A batch of rounds of a plan.

ghost use Rattle.std.specs.Prelude.{◌≡◌, ◌<◌, ◌⊎◌, IfErr, IfOk, length};
ghost use Rattle.std.specs.List.{flat_map};
ghost use Rattle.strc_fuse.specs.Units.{round_units};
ghost use Rattle.strc_batch_laws.specs.Units as laws;
ghost use Rattle.strc_batch.specs.Batches.{IsBatchOf, IsManyTurns, HasNoBatch, HaveManyTurns};
ghost use Rattle.strc_batch.specs.Batches.{plan_listed, plan_units};
ghost use Rattle.strc_batch.specs.Listed.{IsShort};

use crate::batch_units::batch_units;
use crate::error::BatchError;
use crate::group_units::group_units;
use crate::listed::is_short;
use crate::sizes::batch_sizes;
use std::alloc::Global;
use std::marker::Model;
use strc_sched_orders::unit::Unit;
use strc_stage_plan::plan::Plan;

/// A batch of so many rounds of a plan: what its nodes fire, group by group, and how large the
/// buffers are.
pub struct Batch {
    units: Vec<Unit>,
    sizes: Vec<u32>,
    rounds: u32,
}

impl Drop for Batch {
    fn drop(self) {
        let Batch {
            units: _,
            sizes: _,
            rounds: _,
        } = self;
    }
}

impl Model for Batch {
    ghost use Rattle.strc_batch.specs.Batches.{BatchParts};

    ghost Value = { BatchParts };

    ghost view = { λ b. record {
      units = b.units.items;
      sizes = b.sizes.items;
      rounds = b.rounds;
    } };
}

impl Batch {
    ghost use Rattle.std.specs.Prelude.{◌≡◌};

    /// The units, group by group: one for each group that fires.
    pub fn units(&self) -> &[Unit]
        ensures { result.now ≡ self.now.units }
    {
        self.units.as_slice()
    }

    /// The size of each channel's buffer, in items, from 0 to 16,777,216.
    pub fn sizes(&self) -> &[u32]
        ensures { result.now ≡ self.now.sizes }
    {
        self.sizes.as_slice()
    }

    /// How many rounds the batch has.
    pub fn rounds(&self) -> u32
        ensures { result ≡ self.now.rounds }
    {
        self.rounds
    }
}

/// The batch of so many rounds of a plan, between its finest groups: each group's units fire so
/// many times over before the next one's.
///
/// `Long` comes just where the batch has more than 4,096 rounds, or lists of several nodes have
/// more than 65,536 firings in a round or 1,000,000 in the batch, or a node would have 2^32 turns.
/// Else `BufferLimit` comes as `batch_sizes` has it, and `NoMemory` can come in place of any
/// answer. The time is linear in the round, the nodes and the channels.
pub fn batch_of(alloc: Global, plan: &Plan, rounds: u32) -> Result<Batch, BatchError>
    requires rounds { 0 < rounds }
    requires nodes { 0 < length plan.now.graph.nodes }
    ensures batch { IfOk result (IsBatchOf plan.now) }
    ensures rounds { IfOk result (λ batch. batch.rounds ≡ rounds) }
    ensures none { IfErr result (HasNoBatch plan.now rounds) }
{
    plan.known();
    let units = match units_of(alloc, plan, rounds) {
        Ok(units) => units,
        Err(error) => return Err(error),
    };
    match batch_sizes(alloc, plan, rounds) {
        Ok(sizes) => Ok(Batch {
            units,
            sizes,
            rounds,
        }),
        Err(error) => Err(error),
    }
}

/// The units of such a batch.
fn units_of(alloc: Global, plan: &Plan, rounds: u32) -> Result<Vec<Unit>, BatchError>
    requires nodes { 0 < length plan.now.graph.nodes }
    ensures units { IfOk result (λ units. round_units units.items
        ≡ flat_map (laws.batch_units rounds) (plan_units plan.now)) }
    ensures short { IfOk result (λ units. IsShort (plan_listed plan.now) rounds) }
    ensures none { IfErr result (IsManyTurns ((IsShort (plan_listed plan.now) rounds → ⊥)
        ⊎ HaveManyTurns (plan_units plan.now) rounds)) }
{
    let groups = group_units(alloc, plan)?;
    if !is_short(&groups, rounds) {
        return Err(BatchError::Long);
    }
    batch_units(alloc, &groups, rounds)
}
