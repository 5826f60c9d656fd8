//! What a body may pop, look at and push.

ghost use Rattle.std.specs.Prelude.{◌≡◌, ◌<◌, ◌+◌, ◌^◌, IfSome, slice_get};
ghost use Rattle.strc_work_meaning.specs.Firing.{item_ahead};
ghost use Rattle.strc_work_instructions.specs.Running.{port_within};

use crate::window::Window;
use std::marker::Model;
use strc_work_code::limits::FiringLimits;

/// The window of a firing, and how many of its items its body may pop, look at and push.
#[derive(Drop)]
pub struct FiringPort<'a, W: Window> {
    limits: FiringLimits,
    window: &'a W,
}

impl<'a, W: Window> Model for FiringPort<'a, W> {
    ghost use Rattle.strc_work_meaning.specs.Firing.{Port};
    ghost use Rattle.strc_work_instructions.specs.Running.{port_within};

    ghost Value = { Port };

    ghost view = { λ port. port_within port.limits (W.items port.window.now) };
}

impl<'a, W: Window> FiringPort<'a, W> {
    /// The port of a body with these limits, at this window.
    #[inline(always)]
    pub fn new(limits: FiringLimits, window: &'a W) -> FiringPort<'a, W>
        ensures { result ≡ port_within limits (W.items window.now) }
    {
        FiringPort { limits, window }
    }

    /// The item at a place of the window, where it may be popped.
    #[inline(always)]
    pub fn front(&self, place: u32) -> Option<i32>
        ensures item { result ≡ slice_get self.now.front place }
        ensures place { IfSome result (λ item. place + 1 < 2 ^ 32) }
    {
        if place >= self.limits.pops {
            return None;
        }
        self.window.item(place)
    }

    /// The item so many places after the next one that is popped, where it may be looked at.
    #[inline(always)]
    pub fn ahead(&self, popped: u32, place: i32) -> Option<i32>
        ensures { result ≡ item_ahead self.now popped place }
    {
        look_ahead(place, popped, self.limits, self.window)
    }

    /// How many items of the window are ahead, where so many are popped.
    #[inline(always)]
    pub fn left(&self, popped: u32) -> u32 {
        self.limits.peek.saturating_sub(popped)
    }

    /// How many items may be pushed.
    #[inline(always)]
    pub fn room(&self) -> usize
        ensures { result ≡ self.now.room }
    {
        self.limits.pushes as usize
    }

    /// The limits, and the window.
    #[inline(always)]
    pub fn parts(&self) -> (FiringLimits, &'a W)
        ensures { port_within result.0 (W.items result.1.now) ≡ self.now }
    {
        (self.limits, self.window)
    }
}

/// The item so many places after the next one that is popped, where it may be looked at.
#[inline(always)]
fn look_ahead<W: Window>(place: i32, popped: u32, limits: FiringLimits, window: &W) -> Option<i32>
    ensures { result ≡ item_ahead (port_within limits (W.items window.now)) popped place }
{
    if place < 0 {
        return None;
    }
    let at = u64::from(popped) + u64::from(place as u32);
    if at >= u64::from(limits.peek) {
        return None;
    }
    window.item(at as u32)
}
