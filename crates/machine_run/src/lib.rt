// The loop of a run: one inner step after the other, over the numbers one by one.
#![tactic(auto)]

pub mod going; // the steps of a patch that is read
