// The lane ops over the first n lanes of lent slices: the loops of the lane arms of the Rust's `step`.
#![tactic(auto)]

pub mod loops; // loops.rt: the loops
