// What takes and gives parcels.

use crate::Parcel;
use std::alloc::Global;

/// A stage or a collector: it makes one parcel of another, until it has finished.
pub trait Actor: Drop {
    ghost use Rattle.std.specs.Prelude.{◌≡◌, Bool, true, false};
    ghost use Rattle.strc_stage_core.specs.Parcels.{ParcelView};

    ghost does: { Self → ParcelView → Self → ParcelView → Type 0 };

    ghost has_finished: { Self → Bool };

    ghost has_halted: { Self → Bool };

    ghost takes: { Self → ParcelView → Bool };

    /// Has it given its last parcel?
    fn finished(&self) -> bool
        ensures { result ≡ has_finished self.now };

    /// Has a step of it made a stopped parcel?
    fn halted(&self) -> bool
        ensures { result ≡ has_halted self.now };

    /// Can it step on this parcel?
    fn fits(&self, parcel: &Parcel) -> bool
        ensures { result ≡ takes self.now parcel.now };

    /// A parcel becomes another one. Where memory is refused, that one is stopped.
    fn step(&mut self, alloc: Global, parcel: Parcel) -> Parcel
        requires open { has_finished self.old ≡ false }
        ensures { does self.old parcel self.new result };
}
