// Whether the counts of a run add up to its total, and how many steps the total allows.
ghost use Rattle.std.specs.Prelude.{◌≡◌, ◌+◌, ◌≤◌};
ghost use Rattle.busy.specs.Sums.{most_steps, rests, adds_up, allowed};

use kind_table::row;

// The greatest total: 2^53.
pub const TOTAL: u64 = 9007199254740992;

// A comment has the count zero.
#[tactic(auto, unfolding(crate::specs::Sums::rests))]
fn rests_at(k: u8, count: u64) -> bool
    ensures { result ≡ rests k count }
{
    k != row::COMMENT || count == 0
}

// The counts are one per op, a comment's is zero, they add up to the total, and the total is at most 2^53. No sum over 2^53 is made.
pub fn adds_up(rows: &[u8], counts: &[u64], total: u64) -> bool
    ensures { result ≡ adds_up rows.now counts.now total }
{
    if counts.len() != rows.len() || TOTAL < total {
        return false;
    }
    let mut sum: u64 = 0;
    for (k, count) in rows.iter().zip(counts) {
        if !rests_at(*k, *count) || TOTAL - sum < *count {
            return false;
        }
        sum += *count;
    }
    sum == total
}

// The steps that a run may make: its budget, or what is left of the total if that is less.
#[tactic(auto, unfolding(crate::specs::Sums::allowed))]
pub fn allowed_steps(budget: u32, total: u64) -> u32
    ensures { result ≡ allowed budget total }
{
    u64::from(budget).min(TOTAL.saturating_sub(total)) as u32
}

// The total after so many steps more.
pub fn total_after(total: u64, made: u32) -> u64
    requires { total ≤ most_steps }
    ensures { result ≡ total + made }
{
    total + u64::from(made)
}
