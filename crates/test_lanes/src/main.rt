// Runs every lane op over the patterns of vectors.rt, and prints what each gives, in hexadecimal. The stored output was
// worked out apart from this code, by crates/test_lanes/make.py.
#![tactic(auto)]

mod vectors; // vectors.rt: the kinds and the patterns

use lanes::lane::{CellOp, LaneOp, cell_rule, lane_rule};

// What the op of a kind gives of a lane and the cell beside it. The ops that work a lane alone do not look at the cell. A kind is the number of the
// patch format here, as make.py has it and as it is printed.
fn op(kind: u64, a: u64, b: u64) -> u64 {
    match kind {
        15 => cell_rule(CellOp::Index, a, b),
        16 => cell_rule(CellOp::Add, a, b),
        17 => cell_rule(CellOp::BitwiseNand, a, b),
        18 => cell_rule(CellOp::BitwiseAnd, a, b),
        19 => cell_rule(CellOp::BitwiseOr, a, b),
        20 => cell_rule(CellOp::BitwiseXor, a, b),
        21 => lane_rule(LaneOp::BitwiseNot, a),
        22 => cell_rule(CellOp::LeftShift, a, b),
        23 => cell_rule(CellOp::LogicalRightShift, a, b),
        24 => cell_rule(CellOp::ArithmeticRightShift, a, b),
        25 => cell_rule(CellOp::And, a, b),
        26 => cell_rule(CellOp::Or, a, b),
        27 => lane_rule(LaneOp::Not, a),
        28 => cell_rule(CellOp::Add, a, b),
        29 => cell_rule(CellOp::Sub, a, b),
        30 => cell_rule(CellOp::Mul, a, b),
        31 => cell_rule(CellOp::Div, a, b),
        32 => cell_rule(CellOp::Rem, a, b),
        33 => lane_rule(LaneOp::Neg, a),
        34 => lane_rule(LaneOp::Inc, a),
        35 => lane_rule(LaneOp::Dec, a),
        37 => lane_rule(LaneOp::IsNonNegative, a),
        259 => lane_rule(LaneOp::ToInt, a),
        260 => lane_rule(LaneOp::ToFloat, a),
        261 => cell_rule(CellOp::FloatAdd, a, b),
        262 => cell_rule(CellOp::FloatSub, a, b),
        263 => cell_rule(CellOp::FloatMul, a, b),
        264 => cell_rule(CellOp::FloatDiv, a, b),
        265 => cell_rule(CellOp::FloatRem, a, b),
        266 => lane_rule(LaneOp::FloatNeg, a),
        267 => lane_rule(LaneOp::FloatIsNonNegative, a),
        _ => a,
    }
}

// A result, after a space.
fn show(a: u64) {
    io::write_all(1, b" ");
    io::print_hex(1, a, 16);
}

// A line: the kind, the lane, and the result by each cell.
fn row(kind: u64, a: u64, cells: &[u64]) {
    io::print_decimal(1, kind);
    show(a);
    io::write_all(1, b":");
    for &cell in cells {
        show(op(kind, a, cell));
    }
    io::write_all(1, b"\n");
}

// A line for each lane, of each op.
fn each(kinds: &[u64], lanes: &[u64], cells: &[u64]) {
    for &kind in kinds {
        for &a in lanes {
            row(kind, a, cells);
        }
    }
}

fn main() {
    each(&vectors::INT_CELLS, &vectors::INTS, &vectors::INTS);
    each(&vectors::FLOAT_CELLS, &vectors::FLOATS, &vectors::FLOATS);
    each(&vectors::INT_LANES, &vectors::INTS, &[0]);
    each(&vectors::INT_LANES, &vectors::LONE_INTS, &[0]);
    each(&vectors::FLOAT_LANES, &vectors::FLOATS, &[0]);
    each(&vectors::FLOAT_LANES, &vectors::LONE_FLOATS, &[0]);
}
