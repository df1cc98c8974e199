// Lane arithmetic on 64-bit patterns: the lane arms of the Rust's `step`.
#![tactic(auto)]

pub mod int; // int.rt: a lane as an integer
pub mod float; // float.rt: a lane as a float
pub mod remainder; // remainder.rt: what is left of a float by another
pub mod lane; // lane.rt: the lane ops, and the rule of each
