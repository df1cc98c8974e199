// The float that a decimal writes: its digits as a whole number, divided by a power of ten and rounded once.
ghost use Rattle.std.specs.Prelude.{◌≡◌, ◌+◌, ◌-◌, ◌*◌, ◌^◌, ◌<◌, ◌≤◌};
ghost use Rattle.basics.specs.Limits.{most_digits};
ghost use Rattle.decimals.specs.Decimal.{quotient_of};
ghost use Rattle.decimals.specs.Post.{Digits, Summed, Fraction};

use crate::chars::past_digits;

// The place of the first digit after the point, and the place after the last.
#[derive(Clone, Copy)]
pub struct Span {
    pub start: usize,
    pub end: usize,
}

// The digits after the point, where one stands at place `at`; without a point there are none.
pub fn fraction(input: &[u64], at: usize) -> Span
    ensures { Fraction input.now at result.start result.end }
{
    match input.get(at) {
        Some(point) if *point % 256 == 46 => {
            let start = at + 1;
            let end = past_digits(input, start);
            Span { start, end }
        }
        _ => Span { start: at, end: at },
    }
}

// The number a with the digits of a part after it.
pub fn number(input: &[u64], from: usize, to: usize, a: u64) -> u64
    requires digits { Digits input.now from to }
    requires from_bound { (a + 1) * 10 ^ (to - from) ≤ 10 ^ most_digits }
    ensures { Summed input.now from to a result }
{
    let mut n = a;
    for i in from..to {
        n = n * 10 + (input[i] % 256 - 48);
    }
    n
}

// The float nearest to n divided by ten to the power k. Both numbers are floats themselves, so that the division alone rounds.
pub fn quotient(n: u64, k: usize) -> u64
    requires n_bound { n ≤ 2 ^ 53 }
    requires k_le_most_digits { k ≤ most_digits }
    ensures { result ≡ quotient_of n k }
{
    let d = 10u64.pow(k as u32);
    f64::to_bits(std::num::nearest_u64_to_f64(n) / std::num::nearest_u64_to_f64(d))
}
