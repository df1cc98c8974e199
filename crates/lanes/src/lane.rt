// The lane ops, by what they look at, in the order of the kinds, and the rule of each on one lane.
ghost use Rattle.std.specs.Prelude.{◌≡◌};
ghost use Rattle.lanes.specs.Lane.{cell_rule, lane_rule};

use crate::float::{
    float_add, float_div, float_gez, float_mul, float_neg, float_rem, float_sub, to_float, to_int,
};
use crate::int::{
    bit_and, bit_nand, bit_not, bit_or, bit_xor, bool_and, bool_not, bool_or, int_add, int_dec,
    int_div, int_gez, int_inc, int_mul, int_neg, int_rem, int_sar, int_shl, int_shr, int_sub,
};

// The ops that work lane i with cell i.
#[derive(Clone, Copy)]
pub enum CellOp {
    Index,
    BitwiseNand,
    BitwiseAnd,
    BitwiseOr,
    BitwiseXor,
    LeftShift,
    LogicalRightShift,
    ArithmeticRightShift,
    And,
    Or,
    Add,
    Sub,
    Mul,
    Div,
    Rem,
    FloatAdd,
    FloatSub,
    FloatMul,
    FloatDiv,
    FloatRem,
}

// The ops that work a lane alone.
#[derive(Clone, Copy)]
pub enum LaneOp {
    BitwiseNot,
    Not,
    Neg,
    Inc,
    Dec,
    IsNonNegative,
    ToInt,
    ToFloat,
    FloatNeg,
    FloatIsNonNegative,
}

// The lane a by an op with the cell b beside it.
#[tactic(auto, unfolding(crate::specs::Lane::cell_rule))]
pub fn cell_rule(op: CellOp, a: u64, b: u64) -> u64
    ensures { result ≡ cell_rule op a b }
{
    match op {
        CellOp::Index => int_add(a, b),
        CellOp::BitwiseNand => bit_nand(a, b),
        CellOp::BitwiseAnd => bit_and(a, b),
        CellOp::BitwiseOr => bit_or(a, b),
        CellOp::BitwiseXor => bit_xor(a, b),
        CellOp::LeftShift => int_shl(a, b),
        CellOp::LogicalRightShift => int_shr(a, b),
        CellOp::ArithmeticRightShift => int_sar(a, b),
        CellOp::And => bool_and(a, b),
        CellOp::Or => bool_or(a, b),
        CellOp::Add => int_add(a, b),
        CellOp::Sub => int_sub(a, b),
        CellOp::Mul => int_mul(a, b),
        CellOp::Div => int_div(a, b),
        CellOp::Rem => int_rem(a, b),
        CellOp::FloatAdd => float_add(a, b),
        CellOp::FloatSub => float_sub(a, b),
        CellOp::FloatMul => float_mul(a, b),
        CellOp::FloatDiv => float_div(a, b),
        CellOp::FloatRem => float_rem(a, b),
    }
}

// The lane a by an op that looks at nothing else.
#[tactic(auto, unfolding(crate::specs::Lane::lane_rule))]
pub fn lane_rule(op: LaneOp, a: u64) -> u64
    ensures { result ≡ lane_rule op a }
{
    match op {
        LaneOp::BitwiseNot => bit_not(a),
        LaneOp::Not => bool_not(a),
        LaneOp::Neg => int_neg(a),
        LaneOp::Inc => int_inc(a),
        LaneOp::Dec => int_dec(a),
        LaneOp::IsNonNegative => int_gez(a),
        LaneOp::ToInt => to_int(a),
        LaneOp::ToFloat => to_float(a),
        LaneOp::FloatNeg => float_neg(a),
        LaneOp::FloatIsNonNegative => float_gez(a),
    }
}
