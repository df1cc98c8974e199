// Spaces and digits in the input, each value modulo 256, and where they end.
ghost use Rattle.std.specs.Prelude.{◌≡◌, ℕ, Bool};
ghost use Rattle.decimals.specs.Chars.{is_space, is_digit, past, Decides};

pub fn is_space(v: u64) -> bool
    ensures { result ≡ is_space v }
{
    matches!(v % 256, 32 | 9 | 10 | 12 | 13)
}

pub fn is_digit(v: u64) -> bool
    ensures { result ≡ is_digit v }
{
    let d = v % 256;
    matches!(d, 48..=57)
}

// The place of the first value from `at` on that does not pass the test.
pub fn past<F: Fn(u64) -> bool>(test: F, input: &[u64], at: usize) -> usize
    requires { F.IsAlwaysCallable test }
    ensures { (p : ℕ → Bool) → Decides (F.post test) p → result ≡ past p input.now at }
{
    for i in at..input.len() {
        if !test(input[i]) {
            return i;
        }
    }
    usize::max(at, input.len())
}

// The place of the first value from `at` on that is no space.
pub fn past_spaces(input: &[u64], at: usize) -> usize
    ensures { result ≡ past is_space input.now at }
{
    past(is_space, input, at)
}

// The place of the first value from `at` on that is no digit.
pub fn past_digits(input: &[u64], at: usize) -> usize
    ensures { result ≡ past is_digit input.now at }
{
    past(is_digit, input, at)
}
