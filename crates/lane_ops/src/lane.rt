// The cell ops and the lane-only ops. Each contract is over any numbers p of a machine, with those that the op is told among them. Where one lane is
// asked for, no loop is made ready. What an op answers is one number, as a step's is: it stays in a register through the run.
ghost use Rattle.std.specs.Prelude.{◌≡◌, ◌+◌, ◌≤◌, ◌<◌, length};
ghost use Rattle.basics.specs.Limits as limit;
ghost use Rattle.lanes.specs.Lane.{cell_rule, lane_rule};
ghost use Rattle.lanes.specs.declared.lane.CellOp.{CellOp};
ghost use Rattle.lanes.specs.declared.lane.LaneOp.{LaneOp};
ghost use Rattle.lane_loops.specs.Loops.{Computes, ComputesAlone};
ghost use Rattle.machine_numbers.specs.declared.numbers.Numbers.{Numbers};
ghost use Rattle.machine_numbers.specs.Asks.{InRegister};
ghost use Rattle.machine_numbers.specs.Numbers.{at_pointer, of_length, onward, one_list, swapped};
ghost use Rattle.lane_ops.specs.Lane.{reached_of, cell_of, swap_of, alone_of, offset_of, LaneDone};

use kind_table::row;
use lanes::float::{
    float_add, float_div, float_gez, float_mul, float_neg, float_rem, float_sub, to_float, to_int,
};
use lanes::int::{
    bit_and, bit_nand, bit_not, bit_or, bit_xor, bool_and, bool_not, bool_or, int_add, int_dec,
    int_div, int_gez, int_inc, int_mul, int_neg, int_rem, int_sar, int_shl, int_shr, int_sub,
};
use machine_numbers::cells::have;
use machine_numbers::numbers::{DONE, HALTED};

// Whether n cells can be had at the pointer `at`: within the counted length l, 22, and then within the lent tape of m cells, 23.
fn reached(n: usize, at: usize, l: usize, m: usize) -> u32
    requires { n ≤ limit.lanes }
    ensures value { result ≡ reached_of n at l m }
    ensures inside { result ≡ 0 → 0 < n → at + n ≤ m }
{
    let r = have(22, l, at, n);
    if r != DONE {
        return r;
    }
    have(23, m, at, n)
}

// At the pointer `at` of a tape of the counted length l, by the rule of an op.
fn cell<F: Fn(u64, u64) -> u64>(
    rule: F,
    n: usize,
    at: usize,
    l: usize,
    register: &mut [u64],
    tape: &[u64],
) -> u32
    requires callable { F.IsAlwaysCallable rule }
    requires lanes { InRegister n register.old }
    ensures { (o : CellOp) → Computes (F.post rule) (cell_rule o) → (p : Numbers) → one_list (onward result (of_length (at_pointer p at) l)) register.new ≡ cell_of o n (of_length (at_pointer p at) l) register.old tape.now }
{
    if n == 1 {
        let r = reached(1, at, l, tape.len());
        if r != DONE {
            return r;
        }
        lane_loops::loops::zip_one(rule, register, &tape[at..]);
        return DONE;
    }
    if n == 0 {
        return DONE;
    }
    let r = reached(n, at, l, tape.len());
    if r != DONE {
        return r;
    }
    lane_loops::loops::zip_lanes(rule, register, &tape[at..], n);
    DONE
}

pub fn swap(n: usize, at: usize, l: usize, register: &mut [u64], tape: &mut [u64]) -> u32
    requires { InRegister n register.old }
    ensures { (p : Numbers) → swapped (onward result (of_length (at_pointer p at) l)) register.new tape.new ≡ swap_of n (of_length (at_pointer p at) l) register.old tape.old }
{
    if n == 0 {
        return DONE;
    }
    let r = reached(n, at, l, tape.len());
    if r != DONE {
        return r;
    }
    lane_loops::loops::swap_lanes(register, &mut tape[at..], n);
    DONE
}

// By the rule of an op.
fn alone<F: Fn(u64) -> u64>(rule: F, n: usize, register: &mut [u64]) -> u32
    requires callable { F.IsAlwaysCallable rule }
    requires lanes { InRegister n register.old }
    ensures { (o : LaneOp) → ComputesAlone (F.post rule) (lane_rule o) → (p : Numbers) → one_list (onward result p) register.new ≡ alone_of o n p register.old }
{
    if n == 1 {
        lane_loops::loops::map_one(rule, register);
        return DONE;
    }
    lane_loops::loops::map_lanes(rule, register, n);
    DONE
}

// The op of row k, a cell op or a lane-only one: each row has its arm, with the rule of its op. What is below 64 and no row has arms too, and the last
// of them another answer: with fewer arms, or with two alike, the compiler puts a test before the jump.
pub fn lane_op(k: u8, n: usize, at: usize, l: usize, register: &mut [u64], tape: &[u64]) -> u32
    requires { (k < 62) × InRegister n register.old }
    ensures { LaneDone k n at l result register.old tape.now register.new }
{
    match k % 64 {
        row::INDEX => cell(int_add, n, at, l, register, tape),
        row::BITWISE_NAND => cell(bit_nand, n, at, l, register, tape),
        row::BITWISE_AND => cell(bit_and, n, at, l, register, tape),
        row::BITWISE_OR => cell(bit_or, n, at, l, register, tape),
        row::BITWISE_XOR => cell(bit_xor, n, at, l, register, tape),
        row::BITWISE_NOT => alone(bit_not, n, register),
        row::LEFT_SHIFT => cell(int_shl, n, at, l, register, tape),
        row::LOGICAL_RIGHT_SHIFT => cell(int_shr, n, at, l, register, tape),
        row::ARITHMETIC_RIGHT_SHIFT => cell(int_sar, n, at, l, register, tape),
        row::AND => cell(bool_and, n, at, l, register, tape),
        row::OR => cell(bool_or, n, at, l, register, tape),
        row::NOT => alone(bool_not, n, register),
        row::ADD => cell(int_add, n, at, l, register, tape),
        row::SUB => cell(int_sub, n, at, l, register, tape),
        row::MUL => cell(int_mul, n, at, l, register, tape),
        row::DIV => cell(int_div, n, at, l, register, tape),
        row::REM => cell(int_rem, n, at, l, register, tape),
        row::NEG => alone(int_neg, n, register),
        row::INC => alone(int_inc, n, register),
        row::DEC => alone(int_dec, n, register),
        row::IS_NON_NEGATIVE => alone(int_gez, n, register),
        row::TO_INT => alone(to_int, n, register),
        row::TO_FLOAT => alone(to_float, n, register),
        row::FLOAT_ADD => cell(float_add, n, at, l, register, tape),
        row::FLOAT_SUB => cell(float_sub, n, at, l, register, tape),
        row::FLOAT_MUL => cell(float_mul, n, at, l, register, tape),
        row::FLOAT_DIV => cell(float_div, n, at, l, register, tape),
        row::FLOAT_REM => cell(float_rem, n, at, l, register, tape),
        row::FLOAT_NEG => alone(float_neg, n, register),
        row::FLOAT_IS_NON_NEGATIVE => alone(float_gez, n, register),
        62 => DONE,
        _ => HALTED,
    }
}

pub fn offset(v: u64, n: usize, register: &mut [u64]) -> u32
    requires { InRegister n register.old }
    ensures { (p : Numbers) → one_list (onward result p) register.new ≡ offset_of v n p register.old }
{
    lane_loops::loops::offset_lanes(v, register, n);
    DONE
}
