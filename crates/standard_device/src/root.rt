// The square root of a lane as a float of 64 bits, by its pattern: the nearest float. Whole numbers alone: the digits of the root come one by one.
ghost use Rattle.std.specs.Prelude.{◌≡◌, ◌+◌, ◌*◌, ◌^◌, ◌<◌, ◌≤◌};
ghost use Rattle.standard_device.specs.Root.{near_root, positive_root, root_rule};
ghost use Rattle.standard_device.specs.Post.{Turned, Lifted};

use lanes::float::NAN;
use lanes::int::HALF;
use lanes::remainder::{LOW, digits_of, places_of};

const INFINITY: u64 = 0x7FF0_0000_0000_0000;

// The zeros before 53 digits in 64 places.
const ROOM: u32 = 11;

// A root cut to a whole number, and what its square leaves.
#[derive(Clone, Copy)]
struct Found {
    q: u64,
    rest: u64,
}

// A number doubled until it has 53 digits, and how often.
#[derive(Clone, Copy)]
struct Long {
    m: u64,
    times: u64,
}

// One digit more of the root, for two digits more of the number.
fn turn(q: u64, rest: u64, pair: u64) -> Found
    requires q_bound { q < 2 ^ 53 }
    requires rest_bound { rest ≤ 2 * q }
    requires pair_bound { pair < 4 }
    ensures { Turned q rest pair result.q result.rest }
{
    let next = rest * 4 + pair;
    let trial = q * 4 + 1;
    if trial <= next {
        return Found {
            q: q * 2 + 1,
            rest: next - trial,
        };
    }
    Found {
        q: q * 2,
        rest: next,
    }
}

// The whole number nearest to the root of m * 2^52.
fn near_root(m: u64) -> u64
    requires { m < 2 ^ 54 }
    ensures { result ≡ near_root (m * 2 ^ 52) }
{
    let mut q: u64 = 0;
    let mut rest: u64 = 0;
    let mut w = m;
    for _ in 0..53u64 {
        let s = turn(q, rest, w / LOW);
        q = s.q;
        rest = s.rest;
        w = w % LOW * 4;
    }
    if q < rest {
        return q + 1;
    }
    q
}

// Digits doubled until they are 53.
fn raised(d: u64) -> Long
    requires d_nonzero { 0 < d }
    requires d_bound { d < 2 ^ 53 }
    ensures { Lifted d result.m result.times }
{
    let times = d.leading_zeros() - ROOM;
    Long {
        m: d << times,
        times: u64::from(times),
    }
}

// Of a positive finite float: the digits' root, in the place that is half of theirs.
fn positive_root(a: u64) -> u64
    requires a_nonzero { 0 < a }
    requires a_bound { a < 0x7FF0_0000_0000_0000 }
    ensures { result ≡ positive_root a }
{
    let s = raised(digits_of(a));
    let h = places_of(a) + 1022 - s.times;
    near_root(s.m * (1 + h % 2)) + h / 2 * LOW
}

// Either zero and infinity give themselves, and what is negative or a NaN the one NaN.
#[tactic(auto, unfolding(crate::specs::Root::root_rule))]
pub fn square_root(a: u64) -> u64
    ensures { result ≡ root_rule a }
{
    if a % HALF == 0 {
        return a;
    }
    if INFINITY < a {
        return NAN;
    }
    if a == INFINITY {
        return INFINITY;
    }
    positive_root(a)
}
