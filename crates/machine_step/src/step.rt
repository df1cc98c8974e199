// One step: the op at the position, once its lanes are there. The machine's numbers are lent as one, and a family's op those of them that it changes.
ghost use Rattle.std.specs.Prelude.{◌≡◌};
ghost use Rattle.machine_numbers.specs.Numbers.{left, stepped};
ghost use Rattle.partners.specs.Columns.{Stored};
ghost use Rattle.machine_step.specs.Held.{held, after, code_in};
ghost use Rattle.machine_step.specs.Step.{op_of, step_of};
ghost use Rattle.machine_step.specs.Payloads.{PayloadsInBytes};
ghost use Rattle.machine_step.specs.CanStep.{CanStep, CanOp};

use crate::columns::Columns;
use byte_fields::read::u64_at;
use control_ops::control;
use device_ops::device;
use kind_table::row;
use lane_ops::lane;
use machine_numbers::cells::with_lane;
use machine_numbers::numbers::{DONE, HALTED, JUMPED, Numbers};
use ops::op::{binding_at, mode_at};
use tape_ops::tape;

// The op at the position: of row k, it counts n and its payload is at byte a. Each row has its arm, those of the lane ops in `lane_op`, whose match goes
// on where this one ends; of the two the compiler makes one jump. The slices that an op may write are lent each by itself: of a struct of them each
// contract would have to say that its references stay the same (`ghost_name`).
fn op(
    k: u8,
    n: usize,
    a: usize,
    h: &mut Numbers,
    code: &Columns,
    calls: &mut [u16; Numbers::CALLS],
    refs: &mut [u32; Numbers::REFS],
    register: &mut [u64],
    tape: &mut [u64],
    table: &mut [u16],
    channel: &mut [u64],
    input: &[u64],
    output: &mut [u64],
) -> u32
    requires { CanOp k n a (code_in code.now) (held h.old calls.old refs.old register.old tape.old table.old channel.old output.old) }
    ensures halted { h.new.halted ≡ h.old.halted }
    ensures done { after (left result h.old.position h.new) calls.new refs.new register.new tape.new table.new channel.new output.new ≡ op_of k n a code.now.rows.now code.now.bytes.now input.now (held h.old calls.old refs.old register.old tape.old table.old channel.old output.old) }
{
    let at = h.position;
    match k % 64 {
        row::COMMENT => DONE,
        row::SET => tape::set(n, a, &mut h.lanes, register, code.bytes),
        row::FUNCTION => control::function(
            at,
            &mut h.position,
            &mut h.functions,
            code.rows,
            code.partners,
            table,
        ),
        row::CALL => control::call(
            at,
            h.mode,
            &mut h.position,
            &mut h.depth,
            &mut h.functions,
            code.rows,
            code.marks,
            calls,
            register,
            table,
        ),
        row::RETURN => control::ret(at, &mut h.position, &mut h.depth, calls),
        row::WHILE => control::while_op(at, &mut h.position, code.rows, code.partners, register),
        row::IF => control::if_op(
            at,
            &mut h.position,
            code.rows,
            code.partners,
            code.turns,
            register,
        ),
        row::ELSE => control::else_op(at, &mut h.position, code.rows, code.partners),
        row::END => control::end(at, &mut h.position, code.rows, code.partners, register),
        row::STORE => tape::store(n, h.pointer, &mut h.length, register, tape),
        row::LOAD => tape::load(n, h.pointer, &mut h.length, &mut h.lanes, register, tape),
        row::MOVE => {
            let by = u64_at(code.bytes, a);
            tape::move_op(by, &mut h.pointer)
        },
        row::WHERE => tape::where_op(h.pointer, register),
        row::DEREF => tape::deref(&mut h.pointer, &mut h.length, &mut h.saved, refs, tape),
        row::REFER => tape::refer(&mut h.pointer, &mut h.saved, refs),
        row::OFFSET => {
            let by = u64_at(code.bytes, a);
            lane::offset(by, n, register)
        },
        row::SWAP => lane::swap(n, h.pointer, h.length, register, tape),
        row::GET => {
            let mode = mode_at(code.bytes, a);
            device::get(mode, &mut h.taken, register, input)
        },
        row::PUT => {
            let mode = mode_at(code.bytes, a);
            device::put(mode, &mut h.written, register, output)
        },
        row::STANDARD_SET => tape::set(n, a, &mut h.lanes, register, code.bytes),
        row::ALLOC => tape::alloc(&mut h.length, register),
        row::FREE => DONE,
        row::SIN => DONE,
        row::COS => DONE,
        row::TAN => DONE,
        row::A_SIN => DONE,
        row::A_COS => DONE,
        row::A_TAN => DONE,
        row::POW => DONE,
        row::PEEK => device::peek(&mut h.first, &mut h.waiting, register, channel),
        row::POKE => device::poke(h.first, &mut h.waiting, register, channel),
        row::STANDARD_CALL => {
            let binding = binding_at(code.bytes, a);
            device::ffi_call(binding, &mut h.first, &mut h.waiting, channel)
        },
        _ => lane::lane_op(k, n, h.pointer, h.length, register, tape),
    }
}

// Halting is an answer, and not yet among the numbers.
pub fn step(
    h: &mut Numbers,
    code: &Columns,
    calls: &mut [u16; Numbers::CALLS],
    refs: &mut [u32; Numbers::REFS],
    register: &mut [u64],
    tape: &mut [u64],
    table: &mut [u16],
    channel: &mut [u64],
    input: &[u64],
    output: &mut [u64],
) -> u32
    requires can_step { CanStep code.now.rows.now (held h.old calls.old refs.old register.old tape.old table.old channel.old output.old) }
    requires payloads { PayloadsInBytes (code_in code.now) }
    requires stored { Stored code.now.rows.now code.now.partners.now code.now.turns.now code.now.marks.now }
    ensures halted { h.new.halted ≡ h.old.halted }
    ensures stepped { after (stepped result h.new) calls.new refs.new register.new tape.new table.new channel.new output.new ≡ step_of (code_in code.now) input.now (held h.old calls.old refs.old register.old tape.old table.old channel.old output.old) }
{
    let at = h.position;
    let d = usize::from(code.needs[at]);
    let has = h.lanes;
    if has < d {
        return with_lane(21, has);
    }
    let k = code.rows[at];
    let n = usize::from(code.counts[at]);
    let a = code.payloads[at] as usize;
    let r = op(
        k, n, a, h, code, calls, refs, register, tape, table, channel, input, output,
    );
    if r == DONE {
        h.position = at + 1;
        return DONE;
    }
    if r == JUMPED {
        return DONE;
    }
    if r == HALTED {
        h.position = at + 1;
        return HALTED;
    }
    h.position = at;
    r
}
