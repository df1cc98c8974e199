// What the programs share: how they print.
#![tactic(auto)]

pub mod print; // numbers and lists of them
