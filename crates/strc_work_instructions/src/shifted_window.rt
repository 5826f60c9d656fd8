// A part of a window.

ghost use Rattle.std.specs.Prelude.{◌≡◌};
ghost use Rattle.strc_work_instructions.specs.Windows.{items_from};

use crate::window::Window;

/// A window from a place on, which a later firing looks at while the earlier ones' items are still
/// there.
#[derive(Drop)]
pub struct Shifted<'a, W> {
    window: &'a W,
    first: u32,
}

impl<'a, W: Window> Shifted<'a, W> {
    /// The window without so many of its first items, as far as places of 32 bits reach.
    pub fn new(window: &'a W, first: u32) -> Shifted<'a, W>
        ensures window { W.items result.window.now ≡ W.items window.now }
        ensures first { result.first ≡ first }
    {
        Shifted { window, first }
    }
}

impl<W: Window> Window for Shifted<'_, W> {
    ghost items = { λ shifted. items_from shifted.first (W.items shifted.window.now) };

    #[inline(always)]
    fn item(&self, place: u32) -> Option<i32> {
        match self.first.checked_add(place) {
            Some(place) => self.window.item(place),
            None => None,
        }
    }
}
