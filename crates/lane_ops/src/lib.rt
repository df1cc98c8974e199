// The cell ops and the lane-only ops, on the machine's numbers.
#![tactic(auto)]

pub mod lane; // one function for each of the four sorts, and the arms of their rows
