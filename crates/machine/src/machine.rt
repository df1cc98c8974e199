// The machine: its stacks, its numbers and its step total, with its limits and its fresh state; and what its calls leave.
ghost use Rattle.std.specs.Prelude.{◌≡◌};
ghost use Rattle.machine.specs.Fresh.{limits_of, fresh_of};

use answers::run::Answer;
use machine_numbers::numbers::Numbers;

#[derive(Drop)]
pub struct Machine {
    pub calls: [u16; Numbers::CALLS],
    pub refs: [u32; Numbers::REFS],
    pub numbers: Numbers,
    pub total: u64,
}

// The limits, each the last accepted.
#[derive(Clone, Copy)]
pub struct Capacities {
    pub file: usize,
    pub ops: usize,
    pub marks: usize,
    pub lanes: usize,
    pub calls: usize,
    pub refs: usize,
    pub channel: usize,
    pub pointer: usize,
    pub length: usize,
    pub budget: u32,
    pub total: u64,
}

#[derive(Drop)]
pub struct Stepped {
    pub answer: Answer,
    pub machine: Machine,
}

#[derive(Drop)]
pub struct Ran {
    pub answer: Answer,
    pub steps: u32,
    pub machine: Machine,
}

impl Machine {
    pub const FILE: usize = ops::records::Record::FILE;

    pub const OPS: usize = patch_reader::reader::Read::OPS;

    pub const MARKS: usize = patch_reader::reader::Read::MARKS;

    pub const LANES: usize = ops::records::Record::LANES;

    pub const CALLS: usize = Numbers::CALLS;

    pub const REFS: usize = Numbers::REFS;

    pub const CHANNEL: usize = testing_device::device::Peeked::CHANNEL;

    pub const POINTER: usize = Numbers::POINTER;

    pub const LENGTH: usize = Numbers::LENGTH;

    pub const BUDGET: u32 = 0xffffffff;

    pub const TOTAL: u64 = busy::sums::TOTAL;

    // What the constants are.
    pub fn limits() -> Capacities
        ensures { result ≡ limits_of }
    {
        Capacities {
            file: Machine::FILE,
            ops: Machine::OPS,
            marks: Machine::MARKS,
            lanes: Machine::LANES,
            calls: Machine::CALLS,
            refs: Machine::REFS,
            channel: Machine::CHANNEL,
            pointer: Machine::POINTER,
            length: Machine::LENGTH,
            budget: Machine::BUDGET,
            total: Machine::TOTAL,
        }
    }

    // The call modes: a Call asks the Rust's table, or means the mark.
    pub const RUST_TABLE: u32 = machine_numbers::numbers::RUST_TABLE;

    pub const BY_MARK: u32 = machine_numbers::numbers::BY_MARK;

    pub fn fresh(mode: u32) -> Machine
        ensures { result ≡ fresh_of mode }
    {
        Machine {
            calls: [0u16; Machine::CALLS],
            refs: [0u32; Machine::REFS],
            numbers: Numbers {
                depth: 0,
                saved: 0,
                pointer: 0,
                position: 0,
                length: 0,
                lanes: Machine::LANES,
                functions: 0,
                first: 0,
                waiting: 0,
                taken: 0,
                written: 0,
                halted: false,
                mode,
            },
            total: 0,
        }
    }
}
