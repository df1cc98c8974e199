// Runs cases on the real code and prints each answer: document 01's own, and others that its rules decide. The cases and the lines that they
// must give are in crates/test_cases/cases.txt; crates/test_cases/make.py makes this program's standard input and output of it.
//
// A case is a head of 18 bytes, then its name, its patch and its input values. The head: what is done (0 the check and a run, 1 joining, 2
// flattening, 3 as 0 and the counts) and 16 times the call mode, the name's length, and by two bytes each the patch's length, the number of input values, of cells, of outputs or of
// bytes and bodies that there is room for, and of lanes that the register has room for; the budget by four; and the number of counts by two.
#![tactic(auto)]

use answers::numbered::Numbered;
use byte_fields::read::{u16_at, u32_at, u64_at};
use machine::machine::Machine;
use streams::print::{end_line, lane, lanes, number};

// What is done with a case.
#[derive(Clone, Copy, PartialEq, Eq)]
enum Work {
    Run,
    Join,
    Flatten,
    Count,
}

impl From<u8> for Work {
    fn from(n: u8) -> Work {
        match n {
            1 => Work::Join,
            2 => Work::Flatten,
            3 => Work::Count,
            _ => Work::Run,
        }
    }
}

// The head of a case.
#[derive(Clone, Copy)]
struct Head {
    work: Work,
    mode: u32,
    name: usize,
    patch: usize,
    inputs: usize,
    cells: usize,
    room: usize,
    lanes: usize,
    budget: u32,
    counts: usize,
}

impl Head {
    const LENGTH: usize = 18;

    // The next one, if there is one.
    fn read() -> Option<Head> {
        let mut head = [0u8; Head::LENGTH];
        if io::read_full(0, &mut head) < Head::LENGTH {
            return None;
        }
        Some(Head {
            work: Work::from(head[0] % 16),
            mode: u32::from(head[0] / 16),
            name: usize::from(head[1]),
            patch: u16_at(&head, 2),
            inputs: u16_at(&head, 4),
            cells: u16_at(&head, 6),
            room: u16_at(&head, 8),
            lanes: u16_at(&head, 10),
            budget: u32_at(&head, 12) as u32,
            counts: u16_at(&head, 16),
        })
    }
}

fn read_value() -> u64 {
    let mut bytes = [0u8; 8];
    io::read_full(0, &mut bytes);
    u64_at(&bytes, 0)
}

// Reads n values, or as many as there is room for.
fn read_values(values: &mut [u64], n: usize) {
    for value in values.iter_mut().take(n) {
        *value = read_value();
    }
}

// Reads the bytes and prints them.
fn echo(text: &mut [u8]) {
    io::read_full(0, text);
    io::write_all(1, text);
}

fn show_name(n: usize) {
    let mut text = [0u8; 255];
    let k = n.min(text.len());
    echo(&mut text[..k]);
    io::write_all(1, b":");
}

// Lane 0 of a register of n lanes.
fn show_lane(register: &[u64; Machine::LANES], n: usize) {
    io::write_all(1, b" lane");
    if n == 0 {
        io::write_all(1, b" none");
    } else {
        lanes(register, 0, 1);
    }
}

// The input values from place to place.
fn show_left(input: &[u64; 16], from: usize, to: usize) {
    io::write_all(1, b" left");
    lanes(input, from, to);
}

// The first n outputs.
fn show_out(output: &[u64; 64], n: usize) {
    io::write_all(1, b" out");
    lanes(output, 0, n);
}

// The step total, and the counts of n ops.
fn show_counts(total: u64, tally: &[u64; Machine::OPS], n: usize) {
    io::write_all(1, b" total");
    lane(total);
    io::write_all(1, b" counts");
    lanes(tally, 0, n);
}

// A word, and the number and the place of an answer after it.
fn show_answer<A: Numbered + Copy>(word: &[u8], answer: A) {
    io::write_all(1, word);
    number(answer.number());
    number(answer.place());
}

// Reads the input values, and runs the patch with the storage that is lent.
fn show_run(head: Head, file: &[u8]) {
    let mut register = [0u64; Machine::LANES];
    let mut tape = [0u64; 4096];
    let mut table = [0u16; Machine::MARKS];
    let mut channel = [0u64; Machine::CHANNEL];
    let mut input = [0u64; 16];
    let mut output = [0u64; 64];
    let mut tally = [0u64; Machine::OPS];
    read_values(&mut input, head.inputs);
    let lent = head.lanes.min(register.len());
    let cells = head.cells.min(tape.len());
    let inputs = head.inputs.min(input.len());
    let room = head.room.min(output.len());
    let ops = head.counts.min(tally.len());
    let r = Machine::run_fresh(
        file,
        &mut register[..lent],
        &mut tape[..cells],
        &mut table,
        &mut channel,
        &input[..inputs],
        &mut output[..room],
        &mut tally[..ops],
        head.budget,
        head.mode,
    );
    let answer = r.answer;
    let left = r.machine;
    let m = left.numbers;
    io::write_all(1, b" run");
    number(answer.number());
    number(r.steps as usize);
    number(answer.place(m.position));
    show_lane(&register, m.lanes);
    io::write_all(1, b" pointer");
    number(m.pointer);
    io::write_all(1, b" length");
    number(m.length);
    show_left(&input, m.taken, inputs);
    show_out(&output, m.written);
    if head.work == Work::Count {
        show_counts(left.total, &tally, ops);
    }
}

// The n bytes that were written.
fn show_bytes(out: &[u8; 64], n: usize) {
    io::write_all(1, b" bytes");
    if 0 < n {
        io::write_all(1, b" ");
    }
    for &byte in out.iter().take(n) {
        io::print_hex(1, u64::from(byte), 2);
    }
}

fn show_join(head: Head, file: &[u8]) {
    let mut out = [0u8; 64];
    let room = head.room.min(out.len());
    let r = joining::join::join(file, &mut out[..room]);
    show_answer(b" join", r);
    if let Ok(joined) = r {
        show_bytes(&out, joined.bytes);
    }
}

fn show_body(body: u32, first: u32, count: u32) {
    io::write_all(1, b" body");
    number(body as usize);
    number(first as usize);
    number(count as usize);
}

// The number, the first op and the op count of each of n bodies.
fn show_bodies(numbers: &[u32; 64], firsts: &[u32; 64], counts: &[u32; 64], n: usize) {
    for ((&body, &first), &count) in numbers.iter().zip(firsts).zip(counts).take(n) {
        show_body(body, first, count);
    }
}

fn show_flatten(head: Head, file: &[u8]) {
    let mut out = [0u8; 64];
    let mut numbers = [0u32; 64];
    let mut firsts = [0u32; 64];
    let mut counts = [0u32; 64];
    let room = head.room.min(out.len());
    let r = flattening::numbers::flatten_numbers(
        file,
        &mut out[..room],
        &mut numbers,
        &mut firsts,
        &mut counts,
    );
    show_answer(b" flatten", r);
    if let Ok(flattened) = r {
        show_bodies(&numbers, &firsts, &counts, flattened.bodies);
        show_bytes(&out, flattened.bytes);
    }
}

// Reads the patch, and works it.
fn show_case(head: Head, file: &mut [u8]) {
    io::read_full(0, file);
    match head.work {
        Work::Join => show_join(head, file),
        Work::Flatten => show_flatten(head, file),
        Work::Run | Work::Count => {
            show_answer(b" check", patch_check::check::check(file));
            show_run(head, file);
        }
    }
    end_line();
}

fn case(head: Head) {
    show_name(head.name);
    let mut file = [0u8; Machine::FILE];
    let n = head.patch.min(file.len());
    show_case(head, &mut file[..n]);
}

// A proved loop has to end, and nothing says that the cases do: so there is a bound on the turns.
fn main() {
    for _ in 0..100000 {
        match Head::read() {
            Some(head) => case(head),
            None => return,
        }
    }
}
