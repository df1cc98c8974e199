// A lane as a 64-bit integer in two's complement, by its pattern: one function for each arm of the Rust's `step`, in the order of the arms.
ghost use Rattle.std.specs.Prelude.{◌≡◌, ◌*◌, ◌%◌, ◌^◌, not, nat_lt, unsigned_abs};
ghost use Rattle.lanes.specs.Int.{signed, wrap, signed_by, int_add, int_sub, int_mul, int_neg, int_inc, int_dec, int_quotient, int_remainder, int_shl, int_shr, int_sar, bit_nand, bit_and, bit_or, bit_xor, bit_not, bool_and, bool_or, bool_not, int_gez};

// The pattern of the least integer, and how many patterns stand for no negative one.
pub const HALF: u64 = 0x8000_0000_0000_0000;

// How far from 0 the integer of a pattern is.
pub(crate) fn magnitude(a: u64) -> u64
    ensures { result ≡ unsigned_abs (signed a) }
{
    a.cast_signed().unsigned_abs()
}

// The pattern of m, or of -m.
pub(crate) fn with_sign(negative: bool, m: u64) -> u64
    ensures { result ≡ wrap (signed_by negative m) }
{
    if negative { m.wrapping_neg() } else { m }
}

// The pattern of m, with the sign's bit of a: taken from 0 that bit is no digit or all of them, and -m is m - 1 with every digit changed. So no
// branch is taken on the sign.
pub(crate) fn signed_like(a: u64, m: u64) -> u64
    ensures { result ≡ wrap (signed_by (not (nat_lt a (2 ^ 63))) m) }
{
    let s = 0u64.wrapping_sub(a / HALF);
    m.wrapping_add(s) ^ s
}

// a * b, modulo 2^64, from the products of the halves, as 01 has it.
pub fn wrapping_mul(a: u64, b: u64) -> u64
    ensures { result ≡ (a * b) % 2 ^ 64 }
{
    let ah = a / 0x1_0000_0000;
    let al = a % 0x1_0000_0000;
    let bh = b / 0x1_0000_0000;
    let bl = b % 0x1_0000_0000;
    let cross = (ah * bl).wrapping_add(al * bh);
    let low = al * bl;
    low.wrapping_add(cross % 0x1_0000_0000 * 0x1_0000_0000)
}

pub fn bit_nand(a: u64, b: u64) -> u64
    ensures { result ≡ bit_nand a b }
{
    !(a & b)
}

pub fn bit_and(a: u64, b: u64) -> u64
    ensures { result ≡ bit_and a b }
{
    a & b
}

pub fn bit_or(a: u64, b: u64) -> u64
    ensures { result ≡ bit_or a b }
{
    a | b
}

pub fn bit_xor(a: u64, b: u64) -> u64
    ensures { result ≡ bit_xor a b }
{
    a ^ b
}

pub fn bit_not(a: u64) -> u64
    ensures { result ≡ bit_not a }
{
    !a
}

pub fn int_shl(a: u64, b: u64) -> u64
    ensures { result ≡ int_shl a b }
{
    a << (b % 64)
}

pub fn int_shr(a: u64, b: u64) -> u64
    ensures { result ≡ int_shr a b }
{
    a >> (b % 64)
}

pub fn int_sar(a: u64, b: u64) -> u64
    ensures { result ≡ int_sar a b }
{
    (a.cast_signed() >> (b % 64)).cast_unsigned()
}

pub fn int_add(a: u64, b: u64) -> u64
    ensures { result ≡ int_add a b }
{
    a.wrapping_add(b)
}

pub fn int_sub(a: u64, b: u64) -> u64
    ensures { result ≡ int_sub a b }
{
    a.wrapping_sub(b)
}

pub fn int_mul(a: u64, b: u64) -> u64
    ensures { result ≡ int_mul a b }
{
    wrapping_mul(a, b)
}

// The top bit of x tells whether the signs are unlike, and where b is 0 x is the lane.
pub fn int_div(a: u64, b: u64) -> u64
    ensures { result ≡ int_quotient a b }
{
    let x = a ^ b;
    if b == 0 {
        return x; // no quotient: the lane is left
    }
    signed_like(x, magnitude(a) / magnitude(b))
}

pub fn int_rem(a: u64, b: u64) -> u64
    ensures { result ≡ int_remainder a b }
{
    if b == 0 {
        return a; // no remainder: the lane is left
    }
    signed_like(a, magnitude(a) % magnitude(b))
}

pub fn int_neg(a: u64) -> u64
    ensures { result ≡ int_neg a }
{
    a.wrapping_neg()
}

pub fn bool_and(a: u64, b: u64) -> u64
    ensures { result ≡ bool_and a b }
{
    u64::from(a != 0 && b != 0)
}

pub fn bool_or(a: u64, b: u64) -> u64
    ensures { result ≡ bool_or a b }
{
    u64::from(a != 0 || b != 0)
}

pub fn bool_not(a: u64) -> u64
    ensures { result ≡ bool_not a }
{
    u64::from(a == 0)
}

pub fn int_inc(a: u64) -> u64
    ensures { result ≡ int_inc a }
{
    a.wrapping_add(1)
}

pub fn int_dec(a: u64) -> u64
    ensures { result ≡ int_dec a }
{
    a.wrapping_sub(1)
}

pub fn int_gez(a: u64) -> u64
    ensures { result ≡ int_gez a }
{
    u64::from(a < HALF)
}
