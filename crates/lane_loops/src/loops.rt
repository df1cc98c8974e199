// The lane loops over lent slices. Each leaves what lies beyond the first n lanes as it was. A rule is a type parameter, so that nothing is dispatched at
// each lane. The functions for one lane stand beside the loops for speed: with a loop over a count of 1 in their place, Rem over 64 lanes took a sixth
// more instructions.
ghost use Rattle.std.specs.Prelude.{◌≡◌, ◌≤◌, ℕ, length};
ghost use Rattle.lanes.specs.Int.{int_add};
ghost use Rattle.lane_loops.specs.Loops.{zip_to, map_to, beside, Computes, ComputesAlone};

use lanes::int::int_add;

// Each of the first n lanes by a rule with the cell beside it. By index: the proof over both slices in one iterator did not close.
pub fn zip_lanes<F: Fn(u64, u64) -> u64>(rule: F, register: &mut [u64], cells: &[u64], n: usize)
    requires callable { F.IsAlwaysCallable rule }
    requires n_in_bounds { n ≤ length register.old }
    requires n_in_bounds_2 { n ≤ length cells.now }
    ensures { (f : ℕ → ℕ → ℕ) → Computes (F.post rule) f → register.new ≡ zip_to f n register.old cells.now }
{
    for lane in 0..n {
        register[lane] = rule(register[lane], cells[lane]);
    }
}

// Each of the first n lanes by a rule alone.
pub fn map_lanes<F: Fn(u64) -> u64>(rule: F, register: &mut [u64], n: usize)
    requires callable { F.IsAlwaysCallable rule }
    requires n_in_bounds { n ≤ length register.old }
    ensures { (f : ℕ → ℕ) → ComputesAlone (F.post rule) f → register.new ≡ map_to f n register.old }
{
    for lane in &mut register[..n] {
        *lane = rule(*lane);
    }
}

// Lane 0 alone by a rule with the cell beside it.
pub fn zip_one<F: Fn(u64, u64) -> u64>(rule: F, register: &mut [u64], cells: &[u64])
    requires callable { F.IsAlwaysCallable rule }
    requires in_bounds { 1 ≤ length register.old }
    requires in_bounds_2 { 1 ≤ length cells.now }
    ensures { (f : ℕ → ℕ → ℕ) → Computes (F.post rule) f → register.new ≡ zip_to f 1 register.old cells.now }
{
    register[0] = rule(register[0], cells[0]);
}

// Lane 0 alone by a rule alone.
pub fn map_one<F: Fn(u64) -> u64>(rule: F, register: &mut [u64])
    requires callable { F.IsAlwaysCallable rule }
    requires in_bounds { 1 ≤ length register.old }
    ensures { (f : ℕ → ℕ) → ComputesAlone (F.post rule) f → register.new ≡ map_to f 1 register.old }
{
    register[0] = rule(register[0]);
}

// Each of the first n lanes with the same number added.
pub fn offset_lanes(by: u64, register: &mut [u64], n: usize)
    requires { n ≤ length register.old }
    ensures { register.new ≡ map_to (λ a. int_add a by) n register.old }
{
    map_lanes(|a| int_add(a, by), register, n);
}

// The first n lanes and cells change places.
pub fn swap_lanes(register: &mut [u64], cells: &mut [u64], n: usize)
    requires n_in_bounds { n ≤ length register.old }
    requires n_in_bounds_2 { n ≤ length cells.old }
    ensures register_after { register.new ≡ zip_to beside n register.old cells.old }
    ensures cells_after { cells.new ≡ zip_to beside n cells.old register.old }
{
    register[..n].swap_with_slice(&mut cells[..n]);
}

// The first n values of one slice, to the start of the other. By index: `copy_from_slice` would have an archive ask for `memmove` from outside. Out of
// line: with this loop in the one function that a run is compiled to, Rem over 64 lanes took half as much time again.
#[inline(never)]
pub fn copy_lanes(to: &mut [u64], from: &[u64], n: usize)
    requires n_in_bounds { n ≤ length to.old }
    requires n_in_bounds_2 { n ≤ length from.now }
    ensures { to.new ≡ zip_to beside n to.old from.now }
{
    for at in 0..n {
        to[at] = from[at];
    }
}

// The first value of one slice, to the start of the other.
pub fn copy_one(to: &mut [u64], from: &[u64])
    requires in_bounds { 1 ≤ length to.old }
    requires in_bounds_2 { 1 ≤ length from.now }
    ensures { to.new ≡ zip_to beside 1 to.old from.now }
{
    to[0] = from[0];
}
