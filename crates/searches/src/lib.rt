// What a run searches for: the place of a function in the table.
#![tactic(auto)]

pub mod table; // the function table
