// The counts of a run: whether they add up, the steps that the total allows, and the ten busiest ops; in specs/ how a run raises them.
#![tactic(auto)]

pub mod busiest; // the ten busiest ops
pub mod sums; // whether the counts add up to the total, and the steps that it allows
