// Zeros over the start of lent storage.
ghost use Rattle.std.specs.Prelude.{◌≡◌, ℕ, ◌≤◌, length};
ghost use Rattle.states.specs.Zeros.{zeroed};

pub fn zero(lanes: &mut [u64], n: usize)
    requires { n ≤ length lanes.old }
    ensures { lanes.new ≡ zeroed n lanes.old }
{
    lanes[..n].fill(0);
}
