// What 37 tests: the lent room, the limits, the stacks and the table.
ghost use Rattle.std.specs.Prelude.{◌≡◌, ℕ, ◌+◌, ◌≤◌, ◌<◌, length};
ghost use Rattle.basics.specs.Limits.{most_ops, depth};
ghost use Rattle.machine_step.specs.Held.{held};
ghost use Rattle.states.specs.Formed.{has_room, can_start, is_whole, in_limits, in_place, calls_below, refs_within, table_names, is_formed};

use kind_table::row;
use machine_numbers::numbers::{BY_MARK, Numbers};
use ops::records::Record;
use patch_reader::reader::Read;
use testing_device::device::Peeked;

#[tactic(auto, unfolding(crate::specs::Formed::has_room))]
fn has_room(register: &[u64], table: &[u16], channel: &[u64]) -> bool
    ensures { result ≡ has_room register.now table.now channel.now }
{
    Record::LANES <= register.len()
        && Read::MARKS <= table.len()
        && Peeked::CHANNEL <= channel.len()
}

// What a fresh run asks: a known call mode, and room.
#[tactic(auto, unfolding(crate::specs::Formed::can_start, crate::specs::Formed::is_mode))]
pub fn can_start(mode: u32, register: &[u64], table: &[u16], channel: &[u64]) -> bool
    ensures { result ≡ can_start mode register.now table.now channel.now }
{
    mode <= BY_MARK && has_room(register, table, channel)
}

// A tape has no cells, or its first block at least.
#[tactic(auto, unfolding(crate::specs::Formed::is_whole))]
fn is_whole(l: usize) -> bool
    ensures { result ≡ is_whole l }
{
    l == 0 || Numbers::FIRST_BLOCK <= l
}

#[tactic(auto, unfolding(crate::specs::Formed::in_limits, crate::specs::Formed::is_mode))]
fn in_limits(h: Numbers) -> bool
    ensures { result ≡ in_limits h }
{
    h.pointer <= Numbers::POINTER
        && h.length <= Numbers::LENGTH
        && h.lanes <= Record::LANES
        && h.functions <= Read::MARKS
        && h.depth <= Numbers::CALLS
        && h.saved <= Numbers::REFS
        && h.waiting <= Peeked::CHANNEL
        && h.first < Peeked::CHANNEL
        && h.mode <= BY_MARK
        && is_whole(h.length)
}

#[tactic(auto, unfolding(crate::specs::Formed::in_place))]
fn in_place(h: Numbers, ops: usize, inputs: usize, outputs: usize) -> bool
    ensures { result ≡ in_place h ops inputs outputs }
{
    h.position <= ops && h.taken <= inputs && h.written <= outputs
}

// The first n saved calls are below the op count. This and the next are a line each, and what they share is the library's `all`.
fn calls_below(calls: &[u16; Numbers::CALLS], n: usize, ops: usize) -> bool
    requires { n ≤ depth }
    ensures { result ≡ calls_below calls.now n ops }
{
    calls[..n].iter().all(|call| usize::from(*call) < ops)
}

// The first n saved pointers are within their limit.
fn refs_within(refs: &[u32; Numbers::REFS], n: usize) -> bool
    requires { n ≤ depth }
    ensures { result ≡ refs_within refs.now n }
{
    refs[..n]
        .iter()
        .all(|pointer| *pointer as usize <= Numbers::POINTER)
}

// The first n places of the table rise, and each is one of a Function mark.
fn table_names(table: &[u16], n: usize, rows: &[u8]) -> bool
    requires { (n ≤ length table.now) × (length rows.now ≤ most_ops) }
    ensures { result ≡ table_names table.now n rows.now }
{
    let mut least = 0;
    for i in 0..n {
        let place = usize::from(table[i]);
        if place < least || rows.len() <= place || rows[place] != row::FUNCTION {
            return false;
        }
        least = place + 1;
    }
    true
}

// A well-formed state of the patch whose ops have these rows; the slices are lent one by one, as to a run.
#[tactic(auto, unfolding(crate::specs::Formed::is_formed))]
pub fn is_formed(
    h: Numbers,
    calls: &[u16; Numbers::CALLS],
    refs: &[u32; Numbers::REFS],
    rows: &[u8],
    register: &[u64],
    tape: &[u64],
    table: &[u16],
    channel: &[u64],
    output: &[u64],
    inputs: usize,
) -> bool
    requires { length rows.now ≤ most_ops }
    ensures { result ≡ is_formed rows.now inputs (held h calls.now refs.now register.now tape.now table.now channel.now output.now) }
{
    if !has_room(register, table, channel)
        || !in_limits(h)
        || !in_place(h, rows.len(), inputs, output.len())
        || !calls_below(calls, h.depth, rows.len())
        || !refs_within(refs, h.saved)
    {
        return false;
    }
    table_names(table, h.functions, rows)
}
