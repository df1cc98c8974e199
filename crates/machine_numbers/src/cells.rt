// How many cells can be had from a place on, and whether so many can: the cell ops and Swap ask it of the counted length for 22, they and Load and Store
// of the lent tape for 23.
ghost use Rattle.std.specs.Prelude.{◌≡◌, ◌≤◌, ◌<◌};
ghost use Rattle.basics.specs.Limits as limit;
ghost use Rattle.machine_numbers.specs.Numbers.{having, with_lane};

use crate::numbers::{DONE, NUMBERS};

// A refusal's number and its lane, as an op answers them.
pub fn with_lane(number: u32, lane: usize) -> u32
    requires { (number < 64) × (lane < 65536) }
    ensures { result ≡ with_lane number lane }
{
    number + NUMBERS * (lane as u32)
}

// Of l cells l - at stand from the place `at` on, or none. Whether n of them can be had: DONE, or else the refusal with the first that can not.
pub fn have(number: u32, l: usize, at: usize, n: usize) -> u32
    requires { (number < 64) × (n ≤ limit.lanes) }
    ensures { result ≡ having number l at n }
{
    if l <= at {
        if n == 0 {
            return DONE;
        }
        return number;
    }
    let lane = l - at;
    if lane < n {
        return with_lane(number, lane);
    }
    DONE
}
