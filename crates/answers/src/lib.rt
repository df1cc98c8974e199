// What the calls answer: of each answer the number that is given back, the place that goes with it, and what was written.
#![tactic(auto)]

pub mod numbered; // the number and the place
pub mod run; // a step, a run and a fresh run
pub mod check; // the check
pub mod join; // joining
pub mod flatten; // flattening
