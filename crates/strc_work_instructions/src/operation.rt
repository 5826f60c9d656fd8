//! The operations between two numbers that give a value whatever the numbers are, each a type of
//! its own, so that one generic function writes each one's value into a slot.

ghost use Rattle.std.specs.Prelude.{ℤ, ◌≡◌, ◌+ℤ◌, ◌-ℤ◌, ◌*ℤ◌, not};
ghost use Rattle.std.specs.Int.{int_bit_or, int_bit_xor, int_bit_and};
ghost use Rattle.std.specs.Int.RustNames.{int_lt};
ghost use Rattle.std.specs.Ordering.{int_eq};
ghost use mir.Syntax.{w32};
ghost use Rattle.strc_work_meaning.specs.Arithmetic.{wrapped, truth, shifted_left, shifted_right};

use strc_work_meaning::arithmetic;

/// An operation that gives a value for any two numbers.
pub trait Operation {
    ghost value: { ℤ → ℤ → ℤ };

    /// The value of the operation between two numbers.
    fn apply(left: i32, right: i32) -> i32
        ensures { result ≡ value left right };
}

/// The bits that one of the numbers has.
pub struct Or;

/// The bits that just one of the numbers has.
pub struct ExclusiveOr;

/// The bits that both numbers have.
pub struct And;

/// Whether the numbers are equal, as 0 or 1.
pub struct Equal;

/// Whether the numbers differ.
pub struct NotEqual;

/// Whether the left number is below the right one.
pub struct Less;

/// Whether the left number is at most the right one.
pub struct LessOrEqual;

/// Whether the left number is above the right one.
pub struct Greater;

/// Whether the left number is at least the right one.
pub struct GreaterOrEqual;

/// The left number shifted left by the low five bits of the right one.
pub struct ShiftLeft;

/// The left number moved down by the low five bits of the right one; its sign stays.
pub struct ShiftRight;

/// The sum, brought back into 32 bits.
pub struct Add;

/// The difference, brought back into 32 bits.
pub struct Subtract;

/// The product, brought back into 32 bits.
pub struct Multiply;

impl Operation for Or {
    ghost value = { λ left right. int_bit_or w32 left right };

    #[inline(always)]
    fn apply(left: i32, right: i32) -> i32 {
        left | right
    }
}

impl Operation for ExclusiveOr {
    ghost value = { λ left right. int_bit_xor w32 left right };

    #[inline(always)]
    fn apply(left: i32, right: i32) -> i32 {
        left ^ right
    }
}

impl Operation for And {
    ghost value = { λ left right. int_bit_and w32 left right };

    #[inline(always)]
    fn apply(left: i32, right: i32) -> i32 {
        left & right
    }
}

impl Operation for Equal {
    ghost value = { λ left right. truth (int_eq left right) };

    #[inline(always)]
    fn apply(left: i32, right: i32) -> i32 {
        arithmetic::truth(left == right)
    }
}

impl Operation for NotEqual {
    ghost value = { λ left right. truth (not (int_eq left right)) };

    #[inline(always)]
    fn apply(left: i32, right: i32) -> i32 {
        arithmetic::truth(left != right)
    }
}

impl Operation for Less {
    ghost value = { λ left right. truth (int_lt left right) };

    #[inline(always)]
    fn apply(left: i32, right: i32) -> i32 {
        arithmetic::truth(left < right)
    }
}

impl Operation for LessOrEqual {
    ghost value = { λ left right. truth (not (int_lt right left)) };

    #[inline(always)]
    fn apply(left: i32, right: i32) -> i32 {
        arithmetic::truth(left <= right)
    }
}

impl Operation for Greater {
    ghost value = { λ left right. truth (int_lt right left) };

    #[inline(always)]
    fn apply(left: i32, right: i32) -> i32 {
        arithmetic::truth(left > right)
    }
}

impl Operation for GreaterOrEqual {
    ghost value = { λ left right. truth (not (int_lt left right)) };

    #[inline(always)]
    fn apply(left: i32, right: i32) -> i32 {
        arithmetic::truth(left >= right)
    }
}

impl Operation for ShiftLeft {
    ghost value = { λ left right. shifted_left left right };

    #[inline(always)]
    fn apply(left: i32, right: i32) -> i32 {
        arithmetic::shift_left(left, right)
    }
}

impl Operation for ShiftRight {
    ghost value = { λ left right. shifted_right left right };

    #[inline(always)]
    fn apply(left: i32, right: i32) -> i32 {
        arithmetic::shift_right(left, right)
    }
}

impl Operation for Add {
    ghost value = { λ left right. wrapped (left +ℤ right) };

    #[inline(always)]
    fn apply(left: i32, right: i32) -> i32 {
        arithmetic::sum(left, right)
    }
}

impl Operation for Subtract {
    ghost value = { λ left right. wrapped (left -ℤ right) };

    #[inline(always)]
    fn apply(left: i32, right: i32) -> i32 {
        arithmetic::difference(left, right)
    }
}

impl Operation for Multiply {
    ghost value = { λ left right. wrapped (left *ℤ right) };

    #[inline(always)]
    fn apply(left: i32, right: i32) -> i32 {
        arithmetic::product(left, right)
    }
}
