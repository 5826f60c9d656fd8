// Takes the nodes of fission of strc_elab_graph, and what they mean.
// Gives no code: laws that they are the scatter, the copies and the gather of the generic layer.
// The theorem to rely on: `nodes_deal`: under their meaning a scatter deals, a copy fires as what
// it copies, and a gather joins.

ghost use Rattle.strc_sched_laws.specs.Dealing.{IdentityIsStateless, NodesDeal};
ghost use Rattle.strc_sched_laws.specs.DealingRow.{PeekingRow};

/// The nodes of fission are the parts that laws on fission ask for.
pub fn nodes_deal()
    ensures { NodesDeal }
{}

/// Identity can be split: each firing gives the item that it takes, and keeps nothing.
pub fn identity_is_stateless()
    ensures { IdentityIsStateless }
{}

/// A filter that peeks, split in two ways: the writer writes the same.
pub fn peeking_row()
    ensures { PeekingRow }
{}
