// The machine's calls for programs in C or Rust to link. A slice is a pointer and a length. Each call gives back its number, and writes its numbers to
// the start of `answer`, as many of them as it has room for: number and place first, then what the call gives besides. The caller owes that so many
// elements stand at each pointer as its length says, and that no slice that is written overlaps another.
#![tactic(auto)]

ghost use Rattle.std.specs.Prelude.{◌≡◌};
ghost use Rattle.ops.specs.Patch.{patch_of};
ghost use Rattle.patch_reader.specs.Answer.{read_of};
ghost use Rattle.machine.specs.Calls.{slices, fresh_call};
ghost use Rattle.patch_check.specs.File.{check_of};
ghost use Rattle.joining.specs.Joined.{join_of};
ghost use Rattle.flattening.specs.Flattened.{flatten_of};
ghost use Rattle.flattening.specs.Entries.{report_of, flatten_to};
ghost use Rattle.linked.specs.Linked.{given, of_read, of_check, run, of_run, join, of_join, flatten, of_flatten};

use crate::answer::tell;
use answers::flatten::{bodies_of, bytes_of};
use answers::join::length_of;
use answers::numbered::Numbered;
use flattening::body::Body;
use flattening::export::Report;
use machine::machine::Machine;

mod answer; // what is written to `answer`

// Whether a file is good: number, place, and the ops read.
#[unsafe(no_mangle)]
pub extern "C" fn feltcairn_read(bytes: &[u8], answer: &mut [u64]) -> usize
    ensures { given result answer.new ≡ of_read (read_of (patch_of bytes.now)) answer.old }
{
    match patch_reader::reader::read_patch(bytes) {
        Ok(ops) => {
            tell(answer, &[0, ops as u64, ops as u64]);
            0
        }
        Err(unread) => {
            let told = [unread.number as u64, unread.place as u64, unread.ops as u64];
            tell(answer, &told);
            unread.number
        }
    }
}

// The check: number and place.
#[unsafe(no_mangle)]
pub extern "C" fn feltcairn_check(bytes: &[u8], answer: &mut [u64]) -> usize
    ensures { given result answer.new ≡ of_check (check_of bytes.now) answer.old }
{
    let verdict = patch_check::check::check(bytes);
    let number = verdict.number();
    let told = [number as u64, verdict.place() as u64];
    tell(answer, &told);
    number
}

// The fresh run, in a call mode (0 the Rust's table, 1 by mark): number, place, steps, in which no comment counts, the count of outputs, and the first
// lane that could not be had.
#[unsafe(no_mangle)]
pub extern "C" fn feltcairn_run_fresh(
    bytes: &[u8],
    register: &mut [u64],
    tape: &mut [u64],
    table: &mut [u16],
    channel: &mut [u64],
    input: &[u64],
    output: &mut [u64],
    tally: &mut [u64],
    budget: u32,
    mode: u32,
    answer: &mut [u64],
) -> usize
    ensures { run result answer.new (slices register.new tape.new table.new channel.new output.new tally.new) ≡ of_run (fresh_call bytes.now input.now budget mode (slices register.old tape.old table.old channel.old output.old tally.old)) answer.old }
{
    let r = Machine::run_fresh(
        bytes, register, tape, table, channel, input, output, tally, budget, mode,
    );
    let h = r.machine.numbers;
    let number = r.answer.number();
    let told = [
        number as u64,
        r.answer.place(h.position) as u64,
        u64::from(r.steps),
        h.written as u64,
        r.answer.lane() as u64,
    ];
    tell(answer, &told);
    number
}

// Joining: number, place, and the bytes written.
#[unsafe(no_mangle)]
pub extern "C" fn feltcairn_join(bytes: &[u8], out: &mut [u8], answer: &mut [u64]) -> usize
    ensures { join result answer.new out.new ≡ of_join (join_of bytes.now out.old) answer.old }
{
    let joined = joining::join::join(bytes, out);
    let number = joined.number();
    let told = [
        number as u64,
        joined.place() as u64,
        length_of(joined) as u64,
    ];
    tell(answer, &told);
    number
}

// Flattening: number, place, the bytes and the bodies written.
#[unsafe(no_mangle)]
pub extern "C" fn feltcairn_flatten_numbers(
    bytes: &[u8],
    out: &mut [u8],
    numbers: &mut [u32],
    firsts: &mut [u32],
    counts: &mut [u32],
    answer: &mut [u64],
) -> usize
    ensures { flatten result answer.new out.new numbers.new firsts.new counts.new ≡ of_flatten (flatten_of bytes.now out.old numbers.old firsts.old counts.old) answer.old }
{
    let flattened = flattening::numbers::flatten_numbers(bytes, out, numbers, firsts, counts);
    let number = flattened.number();
    let told = [
        number as u64,
        flattened.place() as u64,
        bytes_of(flattened) as u64,
        bodies_of(flattened) as u64,
    ];
    tell(answer, &told);
    number
}

// Flattening with the entries in one list of structs, as the crate flattening has it for Rattle: the number is in the report, with its place and what is
// written.
#[unsafe(no_mangle)]
pub extern "C" fn feltcairn_flatten(bytes: &[u8], out: &mut [u8], bodies: &mut [Body]) -> Report
    ensures report { result ≡ report_of (flatten_to bytes.now out.old bodies.old).answer }
    ensures written { out.new ≡ (flatten_to bytes.now out.old bodies.old).out }
    ensures entries { bodies.new ≡ (flatten_to bytes.now out.old bodies.old).bodies }
{
    flattening::export::feltcairn_flatten(bytes, out, bodies)
}
