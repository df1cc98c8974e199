// What is tested before a machine's steps, and what a fresh run writes before them.
#![tactic(auto)]

pub mod formed; // what 37 tests
pub mod zeros; // zeros over lent storage
