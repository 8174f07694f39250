// Integers of 32 bits, each as an unsigned word: arithmetic, shifts, bits and comparisons. Every function promises its exact answer
// on all words, by the definition (semantics, specs/Words and NumberOperators): a word is read in two's complement, and a result is written modulo 2^32.
#![tactic(auto)]

ghost use Rattle.std.specs.Prelude.{◌≡◌, ◌-◌, ◌*◌, ◌%◌, ◌^◌, not, pos, ◌+ℤ◌, ◌-ℤ◌, ◌*ℤ◌, neg_ℤ, if◌then◌else◌, ◌==◌, bit_and, bit_or, bit_xor, int_div, int_le, int_lt, int_rem, nat_lt, unsigned_abs};
ghost use Rattle.std.specs.Int.Signed.{shr_z};
ghost use Rattle.semantics.specs.Words.{signed, word, in_range, shift};
ghost use Rattle.semantics.specs.NumberOperators.{ones_in, lowest_in, highest_in};
ghost use Rattle.word.specs.Answers.{quotient_of, divided_words, place_of};

// The sign bit alone: the least integer, -2147483648.
pub const SIGN: u32 = 0x8000_0000;

// Every bit: -1.
pub const ALL_ONES: u32 = 0xFFFF_FFFF;

const WIDTH: u32 = 32;

// The sign bit's place.
const TOP: u32 = 31;

// ---- arithmetic. Ruled out: a result that stops at the greatest or the least integer, and one that is an error there.

pub fn add(a: u32, b: u32) -> u32
    ensures { result ≡ word (signed a +ℤ signed b) }
{
    a.wrapping_add(b)
}

pub fn sub(a: u32, b: u32) -> u32
    ensures { result ≡ word (signed a -ℤ signed b) }
{
    a.wrapping_sub(b)
}

pub fn mul(a: u32, b: u32) -> u32
    ensures { result ≡ word (signed a *ℤ signed b) }
{
    a.wrapping_mul(b)
}

pub fn neg(a: u32) -> u32
    ensures { result ≡ word (neg_ℤ (signed a)) }
{
    a.wrapping_neg()
}

// The least integer is its own absolute value.
pub fn abs(a: u32) -> u32
    ensures { result ≡ word (pos (unsigned_abs (signed a))) }
{
    a.cast_signed().unsigned_abs()
}

// Toward zero; none by zero, where `quotient_of` of specs/Answers says which error that is. Ruled out: a quotient rounded down, and a fault where the least
// integer is divided by -1.
pub fn idiv(a: u32, b: u32) -> Option<u32>
    ensures { quotient_of result ≡ divided_words int_div a b }
{
    if b == 0 {
        return None;
    }
    let quotient = a.cast_signed().wrapping_div(b.cast_signed());
    Some(quotient.cast_unsigned())
}

// The PostScript mod, with the sign of `a`. Ruled out: the sign of `b`, and a remainder that is never negative.
pub fn rem(a: u32, b: u32) -> Option<u32>
    ensures { quotient_of result ≡ divided_words int_rem a b }
{
    if b == 0 {
        return None;
    }
    let remainder = a.cast_signed().wrapping_rem(b.cast_signed());
    Some(remainder.cast_unsigned())
}

// Whether the exact sum has 32 bits. Ruled out: a test that the least integer fails as a result, and one of the wrapped sum's sign alone.
pub fn sum_fits(a: u32, b: u32) -> bool
    ensures { result ≡ in_range (signed a +ℤ signed b) }
{
    a.cast_signed().checked_add(b.cast_signed()).is_some()
}

// ---- bits

// How many bits are 1. Ruled out: a count without the sign bit.
pub fn ones(a: u32) -> u32
    ensures { result ≡ ones_in 32 a }
{
    a.count_ones()
}

// The lowest bit that is 1. Ruled out: 32, or any place, for 0.
pub fn lowest(a: u32) -> Option<u32>
    ensures { place_of result ≡ lowest_in 32 a }
{
    if a == 0 {
        return None;
    }
    Some(a.trailing_zeros())
}

// The highest bit that is 1. Ruled out: the zeros above it, and places counted from 1.
pub fn highest(a: u32) -> Option<u32>
    ensures { place_of result ≡ highest_in 32 a }
{
    if a == 0 {
        return None;
    }
    Some(a.ilog2())
}

// To the left by `s`, or to the right by `-s`, filling with zeros. Ruled out: a shift that keeps the sign, and a count modulo 32.
pub fn bitshift(a: u32, s: u32) -> u32
    ensures { result ≡ shift a (signed s) }
{
    if s < WIDTH {
        return a << s;
    }
    let right = s.wrapping_neg();
    if right < WIDTH {
        return a >> right;
    }
    0
}

// Forf's shift to the left, by 0 to 31; a count outside gives 0. Ruled out: a negative count that shifts to the right, and one modulo 32.
pub fn shift_left(a: u32, s: u32) -> u32
    ensures { result ≡ shift a (pos s) }
{
    a.checked_shl(s).unwrap_or(0)
}

// Forf's shift to the right, which spreads the sign; a count outside 0 to 31 gives the sign in all bits. Ruled out: zeros for the sign, and 0 for -1 by 32.
pub fn shift_right(a: u32, s: u32) -> u32
    ensures { result ≡ word (shr_z (signed a) (2 ^ (if nat_lt s 32 then s else 31))) }
{
    (a.cast_signed() >> s.min(TOP)).cast_unsigned()
}

pub fn bit_and(a: u32, b: u32) -> u32
    ensures { result ≡ bit_and a b }
{
    a & b
}

pub fn bit_or(a: u32, b: u32) -> u32
    ensures { result ≡ bit_or a b }
{
    a | b
}

pub fn bit_xor(a: u32, b: u32) -> u32
    ensures { result ≡ bit_xor a b }
{
    a ^ b
}

pub fn bit_not(a: u32) -> u32
    ensures { result ≡ (2 ^ 32 - 1) - a }
{
    !a
}

// ---- comparisons. Ruled out: the order of the words themselves, in which -1 is the greatest, and a wrong answer on equal operands.

pub fn eq(a: u32, b: u32) -> bool
    ensures { result ≡ (a == b) }
{
    a == b
}

pub fn ne(a: u32, b: u32) -> bool
    ensures { result ≡ not (a == b) }
{
    a != b
}

pub fn lt(a: u32, b: u32) -> bool
    ensures { result ≡ int_lt (signed a) (signed b) }
{
    a.cast_signed() < b.cast_signed()
}

pub fn le(a: u32, b: u32) -> bool
    ensures { result ≡ int_le (signed a) (signed b) }
{
    a.cast_signed() <= b.cast_signed()
}

pub fn gt(a: u32, b: u32) -> bool
    ensures { result ≡ int_lt (signed b) (signed a) }
{
    lt(b, a)
}

pub fn ge(a: u32, b: u32) -> bool
    ensures { result ≡ int_le (signed b) (signed a) }
{
    le(b, a)
}
