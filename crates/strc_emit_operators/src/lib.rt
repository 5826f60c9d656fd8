// Takes nothing.
// Gives the C functions of operators: their text, and laws on it, each the contract of a public
// function with an empty body. specs/Meaning says what they return by the C standard (ISO/IEC
// 9899:2011, 6.3, 6.5 and 6.8.6.4).
// The theorems to rely on: `operators_text` spells the functions of specs/Operators, and
// `operators_compute`: a call of one of them has the operator's value, and is never undefined where
// there is one.
// Stands on strc_emit_c, whose C calls them by their names, on strc_work_meaning, whose operators
// they are, and on strc_parse_tree and strc_lex_names.
#![tactic(auto)]

ghost use Rattle.std.specs.Prelude.{◌≡◌};
ghost use Rattle.strc_emit_operators.specs.Laws.{OperatorsCompute};
ghost use Rattle.strc_emit_operators.specs.Rows.{MeaningRows};
ghost use Rattle.strc_emit_operators.specs.Spelling as spec;

const OPERATORS: &[u8] = b"\
static inline int32_t negate(int32_t a) { return (int32_t)(0u - (uint32_t)a); }\n\
static inline int32_t flip(int32_t a) { return a == 0; }\n\
static inline int32_t complement(int32_t a) { return ~a; }\n\
static inline int32_t add(int32_t a, int32_t b) { return (int32_t)((uint32_t)a + (uint32_t)b); }\n\
static inline int32_t subtract(int32_t a, int32_t b) {\n    \
return (int32_t)((uint32_t)a - (uint32_t)b);\n\
}\n\
static inline int32_t multiply(int32_t a, int32_t b) {\n    \
return (int32_t)((uint32_t)a * (uint32_t)b);\n\
}\n\
static inline int32_t quotient(int32_t a, int32_t b) { return b == -1 ? negate(a) : a / b; }\n\
static inline int32_t remainder_of(int32_t a, int32_t b) { return b == -1 ? 0 : a % b; }\n\
static inline int32_t bit_or(int32_t a, int32_t b) { return a | b; }\n\
static inline int32_t exclusive_or(int32_t a, int32_t b) { return a ^ b; }\n\
static inline int32_t bit_and(int32_t a, int32_t b) { return a & b; }\n\
static inline int32_t second(int32_t a, int32_t b) { return (void)a, b; }\n\
static inline int32_t equal(int32_t a, int32_t b) { return a == b; }\n\
static inline int32_t not_equal(int32_t a, int32_t b) { return a != b; }\n\
static inline int32_t less(int32_t a, int32_t b) { return a < b; }\n\
static inline int32_t less_or_equal(int32_t a, int32_t b) { return a <= b; }\n\
static inline int32_t greater(int32_t a, int32_t b) { return a > b; }\n\
static inline int32_t greater_or_equal(int32_t a, int32_t b) { return a >= b; }\n\
static inline int32_t shift_left(int32_t a, int32_t b) {\n    \
return (int32_t)((uint32_t)a << ((uint32_t)b & 31u));\n\
}\n\
static inline int32_t shift_right(int32_t a, int32_t b) { return a >> ((uint32_t)b & 31u); }\n";

/// The functions of all operators, one below another.
pub fn operators_text() -> &'static [u8]
    ensures { result.now ≡ spec.operators_text }
{
    OPERATORS
}

/// A call of an operator's function by its name returns the operator's value, for all numbers of 32
/// bits; only a division by 0 is undefined.
pub fn operators_compute()
    ensures { OperatorsCompute }
{}

/// Rows of what expressions are worth.
pub fn meaning_rows()
    ensures { MeaningRows }
{}
