// The patch machine: its limits, its fresh state, a step, a run, and the fresh run.
#![tactic(auto)]

pub mod machine; // the machine and what it answers
pub mod calls; // a run, and a step
pub mod fresh; // the fresh run
