// Get: the next value of the input, or the integer that its next values write.
ghost use Rattle.std.specs.Prelude.{◌≡◌, ◌+◌, ◌-◌, ◌*◌, ◌%◌, ◌^◌, ◌≤◌, drop};
ghost use Rattle.testing_device.specs.Device.{char_from, int_from, get_of};

use crate::device::Taken;
use decimals::chars::{is_digit, past_spaces};
use ops::op::Mode;

// The number a with one digit more. Ten times a is eight times and twice a.
fn with_digit(a: u64, v: u64) -> u64
    requires { 48 ≤ v % 256 }
    ensures { result ≡ (a * 10 + (v % 256 - 48)) % 2 ^ 64 }
{
    let twice = a.wrapping_add(a);
    let fourfold = twice.wrapping_add(twice);
    let eightfold = fourfold.wrapping_add(fourfold);
    let tenfold = eightfold.wrapping_add(twice);
    tenfold.wrapping_add(v % 256 - 48)
}

// An integer: spaces are passed, then digits are taken; without a digit it is 0.
fn get_int(input: &[u64], at: usize) -> Taken
    ensures { result ≡ int_from (drop at input.now) at }
{
    let start = past_spaces(input, at);
    let mut value: u64 = 0;
    for i in start..input.len() {
        let v = input[i];
        if !is_digit(v) {
            return Taken { value, at: i };
        }
        value = with_digit(value, v);
    }
    Taken {
        value,
        at: usize::max(start, input.len()),
    }
}

fn get_char(input: &[u64], at: usize) -> Option<Taken>
    ensures { result ≡ char_from (drop at input.now) at }
{
    let value = *input.get(at)?;
    Some(Taken { value, at: at + 1 })
}

#[tactic(auto, unfolding(crate::specs::Device::get_of))]
pub fn get(mode: Mode, input: &[u64], at: usize) -> Option<Taken>
    ensures { result ≡ get_of mode input.now at }
{
    match mode {
        Mode::Char => get_char(input, at),
        Mode::Int => Some(get_int(input, at)),
        Mode::Other => Some(Taken { value: 0, at }),
    }
}
