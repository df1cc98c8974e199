// What is left of a finite float by another: both are whole numbers of the least float, and so is what is left. No float is divided, and the C library is
// not called.
ghost use Rattle.std.specs.Prelude.{◌≡◌, ◌*◌, ◌%◌, ◌^◌, ◌<◌, ◌≤◌};
ghost use Rattle.lanes.specs.Steps.{infinity, digits, places, steps};

pub const LOW: u64 = 0x10_0000_0000_0000;

// How many digits a number below LOW doubled has room for in front.
const ROOM: u64 = 11;

// The digits of a finite float, and the places that they stand above the least one.
pub fn digits_of(p: u64) -> u64
    ensures { result ≡ digits p }
{
    if p < LOW {
        return p;
    }
    LOW + p % LOW
}

pub fn places_of(p: u64) -> u64
    ensures { result ≡ places p }
{
    if p < LOW {
        return 0;
    }
    p / LOW - 1
}

// What is left of m with k zeros at its end by n, as many zeros at a time as there is room for.
fn rest_of(m: u64, k: u64, n: u64) -> u64
    requires n_nonzero { 0 < n }
    requires n_bound { n < 2 ^ 53 }
    ensures { result ≡ m * 2 ^ k % n }
{
    // by what is left, which falls by a number of its own at each turn
    let mut rest = m % n;
    let mut left = k;
    while left > 0 {
        let some = left.min(ROOM);
        rest = (rest << some) % n;
        left -= some;
    }
    rest
}

// The pattern of m in place k: the digits go up as far as there is room for them.
fn pattern_of(m: u64, k: u64) -> u64
    requires m_bound { m < 2 ^ 53 }
    requires k_bound { k < 2046 }
    ensures value { steps result ≡ m * 2 ^ k }
    ensures finite { result < infinity }
{
    if m == 0 {
        return 0;
    }
    // until the digits are full or the place is the lowest
    let mut d = m;
    let mut at = k;
    while at > 0 && d < LOW {
        d = d * 2;
        at -= 1;
    }
    d + at * LOW
}

// Of two patterns without the sign's bit.
pub fn remainder(a: u64, b: u64) -> u64
    requires finite { a < infinity }
    requires nonzero { 0 < b }
    requires order { b ≤ a }
    ensures value { steps result ≡ steps a % steps b }
    ensures finite { result < infinity }
{
    let k = places_of(b);
    let rest = rest_of(digits_of(a), places_of(a) - k, digits_of(b));
    pattern_of(rest, k)
}
