// The machine of a case: thirteen numbers, its step total, the saved calls and the saved pointers.
use crate::list::{Damaged, Reader, SAVED};
use crate::tell::Tell;
use machine::machine::Machine;
use machine_numbers::numbers::Numbers;

fn numbers(reader: &mut Reader<'_>) -> Result<Numbers, Damaged> {
    Ok(Numbers {
        position: reader.word()?,
        pointer: reader.word()?,
        length: reader.word()?,
        halted: reader.word()? != 0,
        lanes: reader.word()?,
        functions: reader.word()?,
        first: reader.word()?,
        waiting: reader.word()?,
        taken: reader.word()?,
        written: reader.word()?,
        depth: reader.word()?,
        saved: reader.word()?,
        mode: reader.number()?,
    })
}

// Of a stack that is said to hold more than SAVED entries only so many are given.
pub fn machine(reader: &mut Reader<'_>) -> Result<Machine, Damaged> {
    let numbers = numbers(reader)?;
    let total = reader.value()?;
    let mut calls = [0u16; Machine::CALLS];
    let mut refs = [0u32; Machine::REFS];
    let saved_calls = reader.records::<4>(numbers.depth.min(SAVED))?;
    for (call, bytes) in calls.iter_mut().zip(saved_calls) {
        *call = u16::from_le_bytes([bytes[0], bytes[1]]);
    }
    let saved_refs = reader.records::<4>(numbers.saved.min(SAVED))?;
    for (pointer, bytes) in refs.iter_mut().zip(saved_refs) {
        *pointer = u32::from_le_bytes(*bytes);
    }
    Ok(Machine {
        calls,
        refs,
        numbers,
        total,
    })
}

// The machine's numbers: where it is, what of its storage is in use, and what it has taken, written and saved.
fn same_numbers(tell: Tell, e: Numbers, m: Numbers) -> bool {
    tell.same(b"position", e.position, m.position)
        && tell.same(b"pointer", e.pointer, m.pointer)
        && tell.same(b"counted length", e.length, m.length)
        && tell.same(b"halted", usize::from(e.halted), usize::from(m.halted))
        && tell.same(b"lanes", e.lanes, m.lanes)
        && tell.same(b"functions", e.functions, m.functions)
        && tell.same(b"first place of the channel", e.first, m.first)
        && tell.same(b"values waiting", e.waiting, m.waiting)
        && tell.same(b"inputs taken", e.taken, m.taken)
        && tell.same(b"outputs written", e.written, m.written)
        && tell.same(b"calls saved", e.depth, m.depth)
        && tell.same(b"pointers saved", e.saved, m.saved)
        && tell.same(b"call mode", e.mode as usize, m.mode as usize)
}

// Whether the machine is the one expected.
pub fn same_machine(tell: Tell, e: &Machine, m: &Machine) -> bool {
    let mut calls = e.calls.iter().zip(&m.calls).take(m.numbers.depth);
    let mut refs = e.refs.iter().zip(&m.refs).take(m.numbers.saved);
    same_numbers(tell, e.numbers, m.numbers)
        && tell.same(b"step total", e.total as usize, m.total as usize)
        && calls.all(|(e, m)| tell.same(b"a saved call", usize::from(*e), usize::from(*m)))
        && refs.all(|(e, m)| tell.same(b"a saved pointer", *e as usize, *m as usize))
}
