// The ops of the register as a whole, of the pointer and of the tape, on the machine's numbers.
#![tactic(auto)]

pub mod tape; // one function for each arm of the Rust's `step`
