// The ops that steer: Function, Call, Return, While, If, Else, End. Each stands at the place `at` and is lent the position, which it sets where it
// jumps; a stored place is read only then. A contract is over any numbers p of a machine, with those that are lent among them.
ghost use Rattle.std.specs.Prelude.{◌≡◌, ◌≤◌, length, take};
ghost use Rattle.basics.specs.Limits as limit;
ghost use Rattle.kind_table.specs.Rows as kind;
ghost use Rattle.machine_model.specs.Formed.{Rising};
ghost use Rattle.machine_numbers.specs.declared.numbers.Numbers.{Numbers};
ghost use Rattle.machine_numbers.specs.Numbers.{at_position, of_depth, of_functions, of_mode, left, one_list, steered};
ghost use Rattle.partners.specs.Columns.{turns_of};
ghost use Rattle.control_ops.specs.CanSteer.{Steers, CanCall};
ghost use Rattle.control_ops.specs.Control.{jump_of, function_of, held_to, stands_in, call_of, ret_of, while_of, if_of, elses_of, ends_of};

use kind_table::row;
use machine_numbers::numbers::{DONE, HALTED, JUMPED, Numbers, RUST_TABLE, SIGN};
use partners::scan;
use searches::table;

// After the op at e; 20 where there is none.
#[tactic(auto, using(basics::proofs::Tests::tests), unfolding(basics::specs::Pick::pick, machine_numbers::specs::Numbers::left, crate::specs::Control::jump_of))]
fn jump(at: usize, position: &mut usize, rows: &[u8], e: usize) -> u32
    requires { length rows.now ≤ limit.most_ops }
    ensures { (p : Numbers) → left result at (at_position p position.new) ≡ jump_of rows.now (at_position p at) e }
{
    if rows.len() <= e {
        return 20;
    }
    *position = e + 1;
    JUMPED
}

#[tactic(auto, using(basics::proofs::Tests::tests, crate::proofs::Partners::function_end), unfolding(basics::specs::Pick::pick, machine_numbers::specs::Numbers::left, crate::specs::Control::function_of))]
pub fn function(
    at: usize,
    position: &mut usize,
    functions: &mut usize,
    rows: &[u8],
    partners: &[u16],
    table: &mut [u16],
) -> u32
    requires { Steers kind.function at rows.now partners.now × (functions.old ≤ length table.old) × Rising (take functions.old table.old) }
    ensures { (p : Numbers) → one_list (left result at (of_functions (at_position p position.new) functions.new)) table.new ≡ function_of rows.now (of_functions (at_position p at) functions.old) table.old }
{
    let end = usize::from(partners[at]);
    let n = *functions;
    if rows.len() <= end {
        return 20;
    }
    *functions = table::enter(table, n, at as u16);
    *position = end + 1;
    JUMPED
}

// What entry j of the table is held to: in the Rust's mode the table itself, by mark the marks.
#[tactic(auto, using(basics::proofs::Tests::tests), unfolding(basics::specs::Pick::pick, crate::specs::Control::held_to))]
fn held_to<'a>(mode: u32, table: &'a [u16], marks: &'a [u16]) -> &'a [u16]
    ensures { result.now ≡ held_to mode table.now marks.now }
{
    if mode == RUST_TABLE {
        return table;
    }
    marks
}

// Whether entry j of the table is the mark that is meant: in the Rust's mode, where it has so many; by mark, where it is the j-th mark too.
#[tactic(auto, using(basics::proofs::Tests::tests, crate::proofs::Meant::held_same), unfolding(crate::specs::Control::stands_in))]
fn stands<'a>(mode: u32, j: usize, n: usize, table: &'a [u16], marks: &'a [u16]) -> bool
    requires { (n ≤ length table.now) × (n ≤ length marks.now) }
    ensures { result ≡ stands_in mode j n table.now marks.now }
{
    if n <= j {
        return false;
    }
    let meant = held_to(mode, table, marks);
    table[j] == meant[j]
}

// Each number and slice that it may change is lent by itself, so that its contract holds over any numbers p of a machine.
pub fn call(
    at: usize,
    mode: u32,
    position: &mut usize,
    depth: &mut usize,
    functions: &mut usize,
    rows: &[u8],
    marks: &[u16],
    calls: &mut [u16; Numbers::CALLS],
    register: &[u64],
    table: &mut [u16],
) -> u32
    requires { CanCall at depth.old functions.old rows.now marks.now register.now table.old }
    ensures { (p : Numbers) → steered (left result at (of_functions (of_depth (at_position (of_mode p mode) position.new) depth.new) functions.new)) calls.new table.new ≡ call_of rows.now (of_functions (of_depth (at_position (of_mode p mode) at) depth.old) functions.old) calls.old register.now table.old }
{
    let d = *depth;
    let n = *functions;
    let k = register[0];
    if SIGN <= k {
        return 28;
    }
    if Numbers::CALLS <= d {
        return 32;
    }
    let j = k as usize;
    if stands(mode, j, n, table, marks) {
        calls[d] = at as u16;
        *depth = d + 1;
        let to = usize::from(table[j]);
        *position = to + 1;
        return JUMPED;
    }
    let m = scan::nth_function(marks, k);
    if rows.len() <= m {
        return 29;
    }
    calls[d] = at as u16;
    *depth = d + 1;
    *functions = table::enter(table, n, m as u16);
    *position = m + 1;
    JUMPED
}

#[tactic(auto, using(basics::proofs::Tests::tests), unfolding(basics::specs::Pick::pick, machine_numbers::specs::Numbers::left, crate::specs::Control::ret_of))]
pub fn ret(at: usize, position: &mut usize, depth: &mut usize, calls: &[u16; Numbers::CALLS]) -> u32
    requires { depth.old ≤ limit.depth }
    ensures { (p : Numbers) → left result at (of_depth (at_position p position.new) depth.new) ≡ ret_of (of_depth (at_position p at) depth.old) calls.now }
{
    let d = *depth;
    if d == 0 {
        return HALTED;
    }
    let e = d - 1;
    let p = usize::from(calls[e]);
    *depth = e;
    *position = p + 1;
    JUMPED
}

#[tactic(auto, using(basics::proofs::Tests::tests), unfolding(basics::specs::Pick::pick, machine_numbers::specs::Numbers::left, crate::specs::Control::while_of))]
pub fn while_op(
    at: usize,
    position: &mut usize,
    rows: &[u8],
    partners: &[u16],
    register: &[u64],
) -> u32
    requires { Steers kind.while at rows.now partners.now × (limit.lanes ≤ length register.now) }
    ensures { (p : Numbers) → left result at (at_position p position.new) ≡ while_of rows.now (at_position p at) register.now }
{
    if register[0] == 0 {
        let e = usize::from(partners[at]);
        return jump(at, position, rows, e);
    }
    DONE
}

#[tactic(auto, using(basics::proofs::Tests::tests, crate::proofs::Partners::turn_here, crate::proofs::Partners::if_jump), unfolding(basics::specs::Pick::pick, machine_numbers::specs::Numbers::left, crate::specs::Control::if_of))]
pub fn if_op(
    at: usize,
    position: &mut usize,
    rows: &[u8],
    partners: &[u16],
    turns: &[u16],
    register: &[u64],
) -> u32
    requires { Steers kind.if at rows.now partners.now × (turns.now ≡ turns_of rows.now) × (limit.lanes ≤ length register.now) }
    ensures { (p : Numbers) → left result at (at_position p position.new) ≡ if_of rows.now (at_position p at) register.now }
{
    if register[0] == 0 {
        let e = usize::from(partners[at]);
        let to = scan::first_of(turns[at], e);
        return jump(at, position, rows, to);
    }
    DONE
}

pub fn else_op(at: usize, position: &mut usize, rows: &[u8], partners: &[u16]) -> u32
    requires { Steers kind.else at rows.now partners.now }
    ensures { (p : Numbers) → left result at (at_position p position.new) ≡ elses_of rows.now (at_position p at) }
{
    let e = usize::from(partners[at]);
    jump(at, position, rows, e)
}

#[tactic(auto, using(basics::proofs::Tests::tests, crate::proofs::Partners::end_open), unfolding(basics::specs::Pick::pick, machine_numbers::specs::Numbers::left, crate::specs::Control::ends_of))]
pub fn end(at: usize, position: &mut usize, rows: &[u8], partners: &[u16], register: &[u64]) -> u32
    requires { Steers kind.end at rows.now partners.now × (limit.lanes ≤ length register.now) }
    ensures { (p : Numbers) → left result at (at_position p position.new) ≡ ends_of rows.now (at_position p at) register.now }
{
    if register[0] == 0 {
        return DONE;
    }
    let opener = usize::from(partners[at]);
    if rows.len() <= opener {
        return DONE;
    }
    if rows[opener] == row::WHILE {
        *position = opener + 1;
        return JUMPED;
    }
    DONE
}
