// Get, Put, Peek, Poke and FFI Call, on the machine's numbers.
#![tactic(auto)]

pub mod device; // one function for each arm of the Rust's `step`
