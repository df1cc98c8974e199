// What the last op and the new one make of each other.
ghost use Rattle.std.specs.Prelude.{◌≡◌};
ghost use Rattle.lanes.specs.Int.{int_add};
ghost use Rattle.joining.specs.Stack.{meet};

use crate::entry::Seen;
use kind_table::row;
use lanes::lane::{CellOp, LaneOp, cell_rule, lane_rule};

// The new one is pushed, or left out; the last one is taken off, and the new one is pushed again, a set of this value is, or the last one
// is after the new one; or a move by this value stands for both.
#[derive(Clone, Copy)]
pub enum Met {
    Push,
    Skip,
    Pop,
    Again,
    Test(u64),
    Under,
    Sum(u64),
}

// Two moves as one.
#[tactic(auto, unfolding(lanes::specs::Lane::cell_rule))]
pub fn total(a: u64, b: u64) -> u64
    ensures { result ≡ int_add a b }
{
    cell_rule(CellOp::Add, a, b)
}

// The last op and the new one.
#[tactic(auto, unfolding(crate::specs::Stack::meet, crate::specs::Stack::cells, crate::specs::Stack::tests, lanes::specs::Lane::lane_rule))]
pub fn meets(last: Seen, next: Seen) -> Met
    ensures { result ≡ meet last.row last.count last.value next.row next.count next.value }
{
    match (last.row, next.row) {
        (row::MOVE, row::MOVE) => match total(last.value, next.value) {
            0 => Met::Pop,
            sum => Met::Sum(sum),
        },
        (row::SET, row::SET) | (row::MOVE, row::REFER) | (row::ELSE, row::END) => Met::Again,
        (row::MOVE, row::SET | row::OFFSET) => Met::Under,
        (row::DEREF, row::REFER) => Met::Pop,
        (row::STORE | row::LOAD, row::STORE | row::LOAD) if last.count == next.count => Met::Skip,
        (row::SET, row::IS_NON_NEGATIVE) if last.count == 1 && next.count == 1 => {
            Met::Test(lane_rule(LaneOp::IsNonNegative, last.value))
        }
        _ => Met::Push,
    }
}
