// The check of a patch: its brackets and its known lanes.
#![tactic(auto)]

mod rows; // what the check sees of an op, by its row in the table of kinds
pub mod check; // the ops of a patch, and a whole file
