// The ops of the register as a whole, of the pointer and of the tape: Set, Store, Load, Move, Where, Deref, Refer, Alloc. Each is lent the numbers
// that it may change; its contract is over any numbers p of a machine, with these among them.
ghost use Rattle.std.specs.Prelude.{◌≡◌, ◌+◌, ◌-◌, ◌*◌, ◌^◌, ◌≤◌, ◌<◌, length};
ghost use Rattle.basics.specs.Limits as limit;
ghost use Rattle.machine_numbers.specs.declared.numbers.Numbers.{Numbers};
ghost use Rattle.machine_numbers.specs.Asks.{InRegister};
ghost use Rattle.machine_numbers.specs.Numbers.{at_pointer, of_length, of_lanes, of_saved, onward, one_list};
ghost use Rattle.tape_ops.specs.Tape.{reach, set_of, load_of, store_of, move_of, where_of, deref_of, refer_of, stocked, alloc_of};

use machine_numbers::cells::have;
use machine_numbers::numbers::{DONE, Numbers, SIGN};

// The farthest pointer, as a cell holds it.
const FARTHEST: u64 = Numbers::POINTER as u64;

// The cells by which the counted length grows, once or more often.
const GROWTH: usize = 100000;

// How far below zero a two's complement number stands.
fn size_of_negative(a: u64) -> usize
    requires { 2 ^ 63 ≤ a }
    ensures { result ≡ 2 ^ 64 - a }
{
    (0xffffffffffffffff - a) as usize + 1
}

// The counted length, grown to reach beyond the place e.
#[tactic(auto, using(basics::proofs::Tests::tests), unfolding(basics::specs::Pick::pick, crate::specs::Tape::reach))]
fn grow(l: usize, e: usize) -> usize
    requires { (l ≤ limit.longest) × (e ≤ limit.farthest + limit.lanes) }
    ensures { result ≡ reach l e }
{
    if e < l {
        return l;
    }
    l + GROWTH * ((e - l) / GROWTH + 1)
}

// The counted length that an Alloc begins with.
#[tactic(auto, using(basics::proofs::Tests::tests), unfolding(basics::specs::Pick::pick, crate::specs::Tape::stocked))]
fn stock(l: usize) -> usize
    requires { l ≤ limit.longest }
    ensures { (result ≡ stocked l) × (result ≤ limit.longest) × (0 < result) }
{
    if l == 0 {
        return Numbers::FIRST_BLOCK;
    }
    l
}

// Of one value without a loop, for speed; so Load and Store.
pub fn set(n: usize, a: usize, lanes: &mut usize, register: &mut [u64], bytes: &[u8]) -> u32
    requires { InRegister n register.old × (a + 8 * n ≤ length bytes.now) }
    ensures { (p : Numbers) → one_list (onward result (of_lanes p lanes.new)) register.new ≡ set_of n a p register.old bytes.now }
{
    *lanes = n;
    if n == 1 {
        register[0] = byte_fields::read::u64_at(bytes, a);
        return DONE;
    }
    byte_fields::read::read_values(register, bytes, a, n);
    DONE
}

// Where one lane is asked for, no loop is made ready; so for Store.
pub fn load(
    n: usize,
    at: usize,
    counted: &mut usize,
    lanes: &mut usize,
    register: &mut [u64],
    tape: &[u64],
) -> u32
    requires { (at ≤ limit.farthest) × (counted.old ≤ limit.longest) × InRegister n register.old }
    ensures { (p : Numbers) → one_list (onward result (of_lanes (of_length (at_pointer p at) counted.new) lanes.new)) register.new ≡ load_of n (of_lanes (of_length (at_pointer p at) counted.old) lanes.old) register.old tape.now }
{
    if n == 1 {
        let r = have(23, tape.len(), at, 1);
        if r != DONE {
            return r;
        }
        lane_loops::loops::copy_one(register, &tape[at..]);
    } else if n != 0 {
        let r = have(23, tape.len(), at, n);
        if r != DONE {
            return r;
        }
        lane_loops::loops::copy_lanes(register, &tape[at..], n);
    }
    *lanes = n;
    *counted = grow(*counted, at + n);
    DONE
}

pub fn store(n: usize, at: usize, counted: &mut usize, register: &[u64], tape: &mut [u64]) -> u32
    requires { (at ≤ limit.farthest) × (counted.old ≤ limit.longest) × InRegister n register.now }
    ensures { (p : Numbers) → one_list (onward result (of_length (at_pointer p at) counted.new)) tape.new ≡ store_of n (of_length (at_pointer p at) counted.old) register.now tape.old }
{
    if n == 1 {
        let r = have(23, tape.len(), at, 1);
        if r != DONE {
            return r;
        }
        lane_loops::loops::copy_one(&mut tape[at..], register);
    } else if n != 0 {
        let r = have(23, tape.len(), at, n);
        if r != DONE {
            return r;
        }
        lane_loops::loops::copy_lanes(&mut tape[at..], register, n);
    }
    *counted = grow(*counted, at + n);
    DONE
}

// Move: by the signed amount that the pattern a has.
#[tactic(auto, using(basics::proofs::Tests::tests), unfolding(basics::specs::Pick::pick, machine_numbers::specs::Numbers::left, crate::specs::Tape::move_of))]
pub fn move_op(a: u64, pointer: &mut usize) -> u32
    requires { pointer.old ≤ limit.farthest }
    ensures { (p : Numbers) → onward result (at_pointer p pointer.new) ≡ move_of a (at_pointer p pointer.old) }
{
    let at = *pointer;
    if a < SIGN {
        let to = at + (a as usize);
        if to <= Numbers::POINTER {
            *pointer = to;
            return DONE;
        }
        return 25;
    }
    let b = size_of_negative(a);
    if b <= at {
        *pointer = at - b;
        return DONE;
    }
    24
}

#[tactic(auto, unfolding(basics::specs::Pick::pick, machine_numbers::specs::Numbers::left, crate::specs::Tape::where_of))]
pub fn where_op(at: usize, register: &mut [u64]) -> u32
    requires { limit.lanes ≤ length register.old }
    ensures { (p : Numbers) → one_list (onward result (at_pointer p at)) register.new ≡ where_of (at_pointer p at) register.old }
{
    register[0] = at as u64;
    DONE
}

#[tactic(auto, using(basics::proofs::Tests::tests), unfolding(basics::specs::Pick::pick, machine_numbers::specs::Numbers::left, crate::specs::Tape::deref_of))]
pub fn deref(
    pointer: &mut usize,
    counted: &mut usize,
    saved: &mut usize,
    refs: &mut [u32; Numbers::REFS],
    tape: &[u64],
) -> u32
    requires { (pointer.old ≤ limit.farthest) × (counted.old ≤ limit.longest) }
    ensures { (p : Numbers) → one_list (onward result (of_saved (of_length (at_pointer p pointer.new) counted.new) saved.new)) refs.new ≡ deref_of (of_saved (of_length (at_pointer p pointer.old) counted.old) saved.old) refs.old tape.now }
{
    let at = *pointer;
    let s = *saved;
    if Numbers::REFS <= s {
        return 32;
    }
    if tape.len() <= at {
        return 23;
    }
    let v = tape[at];
    if SIGN <= v {
        return 26;
    }
    if FARTHEST < v {
        return 25;
    }
    refs[s] = at as u32;
    *counted = grow(*counted, at);
    *saved = s + 1;
    *pointer = v as usize;
    DONE
}

#[tactic(auto, using(basics::proofs::Tests::tests), unfolding(basics::specs::Pick::pick, machine_numbers::specs::Numbers::left, crate::specs::Tape::refer_of))]
pub fn refer(pointer: &mut usize, saved: &mut usize, refs: &[u32; Numbers::REFS]) -> u32
    requires { saved.old ≤ limit.depth }
    ensures { (p : Numbers) → onward result (of_saved (at_pointer p pointer.new) saved.new) ≡ refer_of (of_saved (at_pointer p pointer.old) saved.old) refs.now }
{
    if *saved == 0 {
        return 27;
    }
    *saved -= 1;
    *pointer = refs[*saved] as usize;
    DONE
}

pub fn alloc(counted: &mut usize, register: &mut [u64]) -> u32
    requires { (counted.old ≤ limit.longest) × (limit.lanes ≤ length register.old) }
    ensures { (p : Numbers) → one_list (onward result (of_length p counted.new)) register.new ≡ alloc_of (of_length p counted.old) register.old }
{
    let v = register[0];
    let g = stock(*counted);
    // a negative lane is above every length too
    if ((Numbers::LENGTH - g) as u64) < v {
        return 30;
    }
    let to = g + (v as usize);
    register[0] = (g - 1) as u64;
    *counted = to;
    DONE
}
