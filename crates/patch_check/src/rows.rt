// What the check sees of an op: its bracket, the lanes that it needs, and the lanes known after it, by the row of its kind.
ghost use Rattle.std.specs.Prelude.{◌≡◌, ℕ, ◌≤◌};
ghost use Rattle.patch_check.specs.Rows.{opens_of, ends_of, elses_of, need_of, after_of};

use kind_table::bracket;
use kind_table::kinds::kind_at;
use kind_table::known::Known;
use kind_table::need::Need;

// How many brackets it opens: one for Function, While and If. A number, since brackets are counted; so below.
#[tactic(auto, unfolding(crate::specs::Rows::opens_of))]
pub fn opens_of(k: usize) -> usize
    ensures { (result ≡ opens_of k) × (result ≤ 1) }
{
    match k {
        bracket::FUNCTION | bracket::WHILE | bracket::IF => 1,
        _ => 0,
    }
}

// How many brackets it closes: one for End.
#[tactic(auto, unfolding(crate::specs::Rows::ends_of))]
pub fn ends_of(k: usize) -> usize
    ensures { (result ≡ ends_of k) × (result ≤ 1) }
{
    if k == bracket::END { 1 } else { 0 }
}

// How many brackets it must stand in: one for Else.
#[tactic(auto, unfolding(crate::specs::Rows::elses_of))]
pub fn elses_of(k: usize) -> usize
    ensures { result ≡ elses_of k }
{
    if k == bracket::ELSE { 1 } else { 0 }
}

// The lanes that it needs in the check, where it counts n.
#[tactic(auto, unfolding(crate::specs::Rows::need_of))]
pub fn need_of(k: usize, n: usize) -> usize
    ensures { result ≡ need_of k n }
{
    match kind_at(k).need {
        Need::NoLane => 0,
        Need::OneLane | Need::OneInCheck => 1,
        Need::OwnLanes => n,
    }
}

// The lanes known after it, where it counts n and so many were known before it.
#[tactic(auto, unfolding(crate::specs::Rows::after_of))]
pub fn after_of(k: usize, n: usize, lanes: usize) -> usize
    ensures { result ≡ after_of k n lanes }
{
    match kind_at(k).known {
        Known::AsBefore => lanes,
        Known::OwnCount => n,
        Known::OneKnown => 1,
    }
}
