// The machine's numbers, and what an op answers.
#![tactic(auto)]

pub mod numbers; // the machine's numbers
pub mod cells; // the cells that an op can have
