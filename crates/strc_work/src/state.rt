// What a filter keeps from one firing to the next.

ghost use Rattle.std.specs.Prelude.{◌≡◌};

use std::marker::Model;

/// The values of a filter's fields, and room after them for the locals of a firing. Contracts see
/// the values, in order, and the room for all.
#[derive(Drop)]
pub struct State {
    pub(crate) slots: Vec<i32>,
    pub(crate) fields: usize,
}

impl Model for State {
    ghost use Rattle.std.specs.Prelude.{take, length, ◌≤◌};
    ghost use Rattle.strc_work.specs.Kept.{Kept};

    ghost Value = { Kept };

    ghost view = { λ s. record {
      fields = take s.fields s.slots.items;
      room = length s.slots.items;
    } };

    ghost invariant = { λ s. s.fields ≤ length s.slots.items };
}

impl State {
    /// The values of the fields, in order.
    #[inline]
    pub fn fields(&self) -> &[i32]
        ensures { result.now ≡ self.now.fields }
    {
        &self.slots[..self.fields]
    }
}
