// Operations on numbers of 32 bits.

ghost use Rattle.std.specs.Prelude.{◌≡◌, ◌≢◌, pos, neg_ℤ, ◌+ℤ◌, ◌-ℤ◌, ◌*ℤ◌, ◌%◌};
ghost use Rattle.std.specs.Int.{cast_unsigned, int_shl, int_shr};
ghost use Rattle.strc_work_meaning.specs.Arithmetic.{wrapped, quotient, remainder, shift_of};
ghost use Rattle.strc_work_meaning.specs.Arithmetic.{shifted_left, shifted_right, flipped};
ghost use Rattle.strc_work_meaning.specs.Arithmetic as spec;

/// The quotient, rounded towards 0; the minimum by -1 is the minimum.
pub fn divide(dividend: i32, divisor: i32) -> i32
    requires { divisor ≢ pos 0 }
    ensures { result ≡ quotient dividend divisor }
{
    dividend.wrapping_div(divisor)
}

/// What is left of the dividend, with its sign; the minimum by -1 leaves 0.
pub fn rest(dividend: i32, divisor: i32) -> i32
    requires { divisor ≢ pos 0 }
    ensures { result ≡ remainder dividend divisor }
{
    dividend.wrapping_rem(divisor)
}

/// The value moved up by the low five bits of the count.
pub fn shift_left(value: i32, count: i32) -> i32
    ensures { result ≡ shifted_left value count }
{
    value.wrapping_shl(count.cast_unsigned())
}

/// The value moved down by the low five bits of the count; the sign stays.
pub fn shift_right(value: i32, count: i32) -> i32
    ensures { result ≡ shifted_right value count }
{
    value.wrapping_shr(count.cast_unsigned())
}

/// The number of a truth value.
pub fn truth(value: bool) -> i32
    ensures { result ≡ spec.truth value }
{
    if value { 1 } else { 0 }
}

/// A truth value, 0 or 1, negated.
pub fn flip(value: i32) -> i32
    ensures { result ≡ flipped value }
{
    if value == 0 { 1 } else { 0 }
}

/// The sum, brought back into 32 bits.
pub fn sum(left: i32, right: i32) -> i32
    ensures { result ≡ wrapped (left +ℤ right) }
{
    left.wrapping_add(right)
}

/// The difference, brought back into 32 bits.
pub fn difference(left: i32, right: i32) -> i32
    ensures { result ≡ wrapped (left -ℤ right) }
{
    left.wrapping_sub(right)
}

/// The product, brought back into 32 bits.
pub fn product(left: i32, right: i32) -> i32
    ensures { result ≡ wrapped (left *ℤ right) }
{
    left.wrapping_mul(right)
}

/// The value with the other sign; the minimum stays.
pub fn negate(value: i32) -> i32
    ensures { result ≡ wrapped (neg_ℤ value) }
{
    value.wrapping_neg()
}
