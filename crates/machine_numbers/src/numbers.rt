// The machine's numbers.

// The sign's bit: a lane or cell of at least this has a negative integer.
pub const SIGN: u64 = 0x8000000000000000;

// What an op answers that is done and goes on to the next op, one that has set the position, and a Return that halts. A refused one answers the
// refusal's number, which is below NUMBERS, and so many times the lane that it lacks. One number, which a run tests in a register; the refusals' are 01's,
// by which the definitions name them (`move_of`, `having`), and an enum of them would be turned back into these where a run ends.
pub const DONE: u32 = 0;

pub const JUMPED: u32 = 1;

pub const HALTED: u32 = 2;

pub const NUMBERS: u32 = 64;

#[derive(Clone, Copy)]
pub struct Numbers {
    pub depth: usize,
    pub saved: usize,
    pub pointer: usize,
    pub position: usize,
    pub length: usize,
    pub lanes: usize,
    pub functions: usize,
    pub first: usize,
    pub waiting: usize,
    pub taken: usize,
    pub written: usize,
    pub halted: bool,
    pub mode: u32,
}

// The call modes: a Call asks the Rust's table, or means the mark. Numbers, since a call to link hands in any (`feltcairn_run_fresh`), and a third is 37.
pub const RUST_TABLE: u32 = 0;

pub const BY_MARK: u32 = 1;

impl Numbers {
    pub const POINTER: usize = 1000000000;

    pub const LENGTH: usize = 2000000000;

    // The cells that an Alloc gives a tape of none; no counted length lies between 0 and this.
    pub const FIRST_BLOCK: usize = 30000;

    pub const CALLS: usize = 256;

    pub const REFS: usize = 256;
}
