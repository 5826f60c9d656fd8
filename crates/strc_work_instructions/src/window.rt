// The items that a firing finds at the front of its input.

ghost use Rattle.std.specs.Prelude.{ℕ, ℤ, List, ◌≡◌, slice_get};

/// A list of items that can be looked at by place.
pub trait Window {
    ghost items: { Self → List ℤ };

    /// The item at the place, counted from 0, and None past the end.
    fn item(&self, place: u32) -> Option<i32>
        ensures { result ≡ slice_get (items self.now) place };
}

impl Window for &[i32] {
    ghost items = { λ items. items.now };

    fn item(&self, place: u32) -> Option<i32> {
        self.get(place as usize).copied()
    }
}

/// The items of a ring, in the two pieces in which it has them: those of `front` come first.
#[derive(Clone, Copy)]
pub struct RingWindow<'a> {
    pub front: &'a [i32],
    pub back: &'a [i32],
}

impl<'a> Window for RingWindow<'a> {
    ghost use Rattle.std.specs.Prelude.{◌++◌};

    ghost items = { λ window. window.front.now ++ window.back.now };

    #[inline(always)]
    fn item(&self, place: u32) -> Option<i32> {
        let place = place as usize;
        if place < self.front.len() {
            Some(self.front[place])
        } else {
            self.back.get(place - self.front.len()).copied()
        }
    }
}
