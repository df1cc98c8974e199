// The runner: a patch on standard input, checked and run from fresh with no input values, 4,096 cells, room for 4,096 outputs and a budget of
// 100,000 steps; with the argument --by-mark in the other call mode. It prints the check's number and place, the run's number, steps and place, the outputs,
// and place and count of the ten busiest ops; of a bad file `load`, its number and place alone.
#![tactic(auto)]

use answers::numbered::Numbered;
use busy::busiest::{Busy, busiest};
use machine::machine::Machine;
use patch_check::check::check;
use patch_reader::reader::read_patch;
use std::env::FillError;
use std::rt::Env;
use streams::print::{end_line, lanes, number};

// What the runner lends beside the machine's own limits, and how many steps it lets a patch make.
const CELLS: usize = 4096;

const OUTPUTS: usize = 4096;

const BUDGET: u32 = 100000;

// A word, and a number and a place after it.
fn show_answer(word: &[u8], n: usize, place: usize) {
    io::write_all(1, word);
    number(n);
    number(place);
    end_line();
}

// Place and count of each, the busiest first; the word alone if there is none.
fn show_busy(b: Busy) {
    io::write_all(1, b"busy");
    for op in b.ops.iter().take(b.n) {
        number(op.place);
        number(op.count as usize);
    }
    end_line();
}

// The counts are one for each op of the file.
fn run(file: &[u8], mode: u32, tally: &mut [u64]) {
    let mut register = [0u64; Machine::LANES];
    let mut tape = [0u64; CELLS];
    let mut table = [0u16; Machine::MARKS];
    let mut channel = [0u64; Machine::CHANNEL];
    let mut output = [0u64; OUTPUTS];
    let input = [0u64; 0];
    let r = Machine::run_fresh(
        file,
        &mut register,
        &mut tape,
        &mut table,
        &mut channel,
        &input,
        &mut output,
        tally,
        BUDGET,
        mode,
    );
    let answer = r.answer;
    let m = r.machine.numbers;
    io::write_all(1, b"run");
    number(answer.number());
    number(r.steps as usize);
    number(answer.place(m.position));
    end_line();
    io::write_all(1, b"out");
    lanes(&output, 0, m.written);
    end_line();
    show_busy(busiest(tally));
}

fn check_and_run(file: &[u8], mode: u32) {
    match read_patch(file) {
        Ok(ops) => {
            let verdict = check(file);
            show_answer(b"check", verdict.number(), verdict.place());
            let mut tally = [0u64; Machine::OPS];
            let n = ops.min(tally.len());
            run(file, mode, &mut tally[..n]);
        }
        Err(unread) => show_answer(b"load", unread.number, unread.place),
    }
}

// The one argument that the runner takes.
const WORD: [u8; 9] = *b"--by-mark";

// Whether there is an argument of this number; the program's name is argument 0.
fn has_argument(rt: &HostRuntime, n: usize) -> bool {
    let mut start = [0u8; 1];
    !matches!(rt.arg(n, &mut start), Err(FillError::NotPresent))
}

// Whether the first argument is that word.
fn is_by_mark(rt: &HostRuntime) -> bool {
    let mut word = [0u8; 9];
    matches!(rt.arg(1, &mut word), Ok(9)) && word == WORD
}

// The call mode that the arguments ask for, if they ask for one: with no argument the Rust's mode, with the word the other.
fn mode_asked(rt: &HostRuntime) -> Option<u32> {
    if !has_argument(rt, 1) {
        return Some(Machine::RUST_TABLE);
    }
    if !has_argument(rt, 2) && is_by_mark(rt) {
        return Some(Machine::BY_MARK);
    }
    None
}

// One byte more than the longest file is read, so that a longer one is answered as such and not read to its end.
fn read_and_run(mode: u32) {
    let mut file = [0u8; Machine::FILE + 1];
    let n = io::read_full(0, &mut file);
    check_and_run(&file[..n], mode);
}

fn main(rt: HostRuntime) {
    match mode_asked(&rt) {
        Some(mode) => read_and_run(mode),
        None => {
            io::write_all(2, b"runner: it takes no argument but --by-mark\n");
        }
    }
}
