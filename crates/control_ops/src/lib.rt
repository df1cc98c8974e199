// The ops that steer, on the machine's numbers.
#![tactic(auto)]

pub mod control; // one function for each arm of the Rust's `step`
