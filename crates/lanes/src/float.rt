// A lane as a float of 64 bits, by its pattern: one function for each arm of the Rust's `step`, in the order of the arms. Every NaN pattern is
// read as the one NaN, and a NaN that an op gives is stored as one pattern.
ghost use Rattle.std.specs.Prelude.{◌≡◌, ◌*◌, ◌%◌, ◌^◌, ◌||◌, Float};
ghost use Rattle.std.specs.Float.{binary64};
ghost use Rattle.std.specs.Float.Ieee.{nan_bits};
ghost use Rattle.lanes.specs.Float.{Gives, Strict, loaded_of, stored_of, float_add, float_sub, float_mul, float_div, float_rem, float_neg, float_gez, to_int, to_float};

use crate::int::{HALF, bit_or, magnitude, with_sign};
use crate::remainder::remainder;

// The pattern that every NaN is stored as.
pub const NAN: u64 = 0x7FF8_0000_0000_0000;

const LIFT: u64 = 0xF_FFFF_FFFF_FFFF;

// Infinity's pattern, twice.
const TWICE_INFINITY: u64 = 0xFFE0_0000_0000_0000;

// Whether a pattern is a NaN's: below the sign it is above infinity's.
fn nan_bits(a: u64) -> bool
    ensures { result ≡ nan_bits binary64 a }
{
    a % HALF > 0x7FF0_0000_0000_0000
}

// Whether one of two patterns is a NaN's: added to what is below the sign, LIFT takes a NaN's pattern to the sign's bit, and no other. It is one
// test for both, without a branch between them.
fn either_nan(a: u64, b: u64) -> bool
    ensures { result ≡ (nan_bits binary64 a || nan_bits binary64 b) }
{
    bit_or(a % HALF + LIFT, b % HALF + LIFT) >= HALF
}

// The pattern of a float.
pub fn as_int(x: f64) -> u64
    ensures { result ≡ stored_of x }
{
    if x != x { NAN } else { f64::to_bits(x) }
}

// Toward zero, and to the nearest end of the range where it is out of it: that of the magnitude, and the sign is chosen after it.
pub fn to_int(a: u64) -> u64
    ensures { result ≡ to_int a }
{
    if nan_bits(a) {
        return 0;
    }
    let negative = a >= HALF;
    let x = f64::from_bits(a % HALF);
    if x < 9223372036854775808.0 {
        return with_sign(negative, std::num::truncating_f64_to_u64(x));
    }
    if negative {
        HALF
    } else {
        0x7FFF_FFFF_FFFF_FFFF
    }
}

// To the nearest float: that of the magnitude, which is no NaN and has no sign, with the sign's bit of the lane put in, so that no branch is taken.
pub fn to_float(a: u64) -> u64
    ensures { result ≡ to_float a }
{
    let p = f64::to_bits(std::num::nearest_u64_to_f64(magnitude(a)));
    p.wrapping_add(a - a % HALF)
}

// An op on the floats of two patterns that gives a NaN where one of them is: it is not computed there.
fn unless_nan<F: FnOnce(f64, f64) -> f64>(a: u64, b: u64, op: F) -> u64
    requires { F.IsAlwaysCallable op }
    ensures { (f : Float → Float → Float) → Gives (F.post op) f → Strict f → result ≡ stored_of (f (loaded_of a) (loaded_of b)) }
{
    if either_nan(a, b) {
        return NAN;
    }
    as_int(op(f64::from_bits(a), f64::from_bits(b)))
}

pub fn float_add(a: u64, b: u64) -> u64
    ensures { result ≡ float_add a b }
{
    unless_nan(a, b, |x, y| x + y)
}

pub fn float_sub(a: u64, b: u64) -> u64
    ensures { result ≡ float_sub a b }
{
    unless_nan(a, b, |x, y| x - y)
}

pub fn float_mul(a: u64, b: u64) -> u64
    ensures { result ≡ float_mul a b }
{
    unless_nan(a, b, |x, y| x * y)
}

// Where an operand is a NaN it divides -0 by 0, which gives one: so no branch is taken, and a loop divides two lanes at a time.
pub fn float_div(a: u64, b: u64) -> u64
    ensures { result ≡ float_div a b }
{
    let bad = either_nan(a, b);
    let x = if bad { HALF } else { a };
    let y = if bad { 0 } else { b };
    as_int(f64::from_bits(x) / f64::from_bits(y))
}

// A pattern without the sign's bit, twice: it keeps the order of sizes, and takes one sum.
fn doubled(a: u64) -> u64
    ensures { result ≡ 2 * (a % 2 ^ 63) }
{
    a.wrapping_add(a)
}

// A float below the divisor in size, as every finite one is below infinity, is its own remainder, and nothing is computed for it. A NaN's pattern is
// above infinity's, and so is its double. What is left has the sign of what is divided.
pub fn float_rem(a: u64, b: u64) -> u64
    ensures { result ≡ float_rem a b }
{
    let x = doubled(a);
    let y = doubled(b);
    if x < y {
        if y > TWICE_INFINITY {
            return NAN;
        }
        return a;
    }
    if x >= TWICE_INFINITY {
        return NAN;
    }
    if y == 0 {
        return NAN;
    }
    let p = a % HALF;
    remainder(p, b % HALF) + (a - p)
}

// The sign's bit flipped, of a NaN too.
pub fn float_neg(a: u64) -> u64
    ensures { result ≡ float_neg a }
{
    a.wrapping_add(HALF)
}

// 1 where the float is at least 0, as -0.0 is, and 0 where it is not or is a NaN. No float is compared: taken from the first number a pattern up to
// infinity's leaves HALF or more, and a NaN's leaves less; taken from 2^64, of the patterns with the sign -0.0's alone leaves as much.
pub fn float_gez(a: u64) -> u64
    ensures { result ≡ float_gez a }
{
    let rest = if a < HALF {
        0xFFF0_0000_0000_0000 - a
    } else {
        0xFFFF_FFFF_FFFF_FFFF - a + 1
    };
    rest / HALF
}
