// What is done at the ends of a link.

ghost use Rattle.std.specs.Prelude.{◌≡◌, ◌++◌, ◌∷◌, [], MatchOption, MatchResult};
ghost use Rattle.strc_run_links.specs.Ends.{sent_by, got_by, SameTx, SameRx};

use crate::rule::{Got, Sent};
use crate::rx::Rx;
use crate::tx::Tx;
use std::sync::Wait;
use strc_stage_core::Parcel;

impl Tx {
    /// Gives a parcel to the taker, and may wait for room. It comes back, unsent, only where the
    /// taker's end is gone.
    pub fn give<R: Wait>(&mut self, rt: &R, parcel: Parcel) -> Result<(), Parcel>
        ensures same { SameTx self.old self.new }
        ensures sent { MatchResult result
            (λ _. sent_by self.new ≡ sent_by self.old ++ parcel ∷ [])
            (λ back. (back ≡ parcel) × (sent_by self.new ≡ sent_by self.old)) }
    {
        let Tx { end, pass } = self;
        match end.send_as::<Sent, R>(rt, pass, parcel) {
            Ok(()) => Ok(()),
            Err(refused) => Err(refused.into_inner()),
        }
    }
}

impl Rx {
    /// Takes the oldest parcel on the link, and may wait for one. None comes only where the giver's
    /// end is gone and the link is empty.
    pub fn take<R: Wait>(&mut self, rt: &R) -> Option<Parcel>
        ensures same { SameRx self.old self.new }
        ensures got { MatchOption result (got_by self.new ≡ got_by self.old)
            (λ parcel. got_by self.new ≡ got_by self.old ++ parcel ∷ []) }
    {
        let Rx { end, pass } = self;
        end.recv_as::<Got, R>(rt, pass).ok()
    }
}
